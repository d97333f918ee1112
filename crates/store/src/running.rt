// A list of calls on a new store.
ghost use Rattle.std.specs.Prelude.{IfErr};
ghost use Rattle.store.specs.Runs.{MadeCalls, Ran};
ghost use Rattle.store.specs.Starts.{SameSlices};

use super::calls::{Answer, Call};
use super::starting::{NotStarted, start};
use super::store::Store;
use kinds::{Key, Value};
use tables::{EntryCell, NodeCell};

impl<'a, K: Key, V: Value> Store<'a, K, V> {
    // Makes the calls in order, writes their answers into the list, and saved images one after another into the buffer; says how many calls it made.
    fn make_calls(
        &mut self,
        calls: &[Call<&[u8], K, V>],
        answers: &mut [Answer<V>],
        out: &mut [u8],
    ) -> usize
        ensures { MadeCalls K.kind V.kind K.bytes V.bytes self.old self.new calls.now answers.old answers.new out.old out.new result }
    {
        let mut at = 0;
        for (i, call) in calls.iter().enumerate() {
            if i == answers.len() || call.capacity() > out.len() - at {
                return i;
            }
            let answer = self.step(call, &mut out[at..]);
            at += answer.written();
            answers[i] = answer;
        }
        calls.len()
    }
}

/// A run that was made: how many of its calls, and the lent tables as it leaves them.
#[derive(Drop)]
pub struct Finished<'a, K, V> {
    pub made: usize,
    pub nodes: &'a mut [NodeCell],
    pub entries: &'a mut [EntryCell<K, V>],
}

/// Starts a new store over the lent tables, makes the calls in order, and says how many it made; the tables come back
/// as the calls leave them.
///
/// Answers are written into the lent list, and saved images one after another into the lent buffer: a save is lent as
/// many bytes of it as it asks for, and the next image begins where this one ends. The run stops before a call that the
/// list has no place for, and before a save that the buffer has not so many bytes left for.
///
/// A table of more than 65,535 cells is refused with 2, and then the tables come back as they were, and the answers and
/// the buffer are as they were.
pub fn run<'a, K: Key, V: Value>(
    nodes: &'a mut [NodeCell],
    entries: &'a mut [EntryCell<K, V>],
    calls: &[Call<&[u8], K, V>],
    answers: &mut [Answer<V>],
    out: &mut [u8],
) -> Result<Finished<'a, K, V>, NotStarted<'a, K, V>>
    ensures same_slices { IfErr result (SameSlices nodes.entry entries.entry) }
    ensures ran { Ran K.kind V.kind K.bytes V.bytes nodes.old entries.old calls.now answers.old answers.new out.old out.new result }
{
    let mut store = start(nodes, entries)?;
    let made = store.make_calls(calls, answers, out);
    let (nodes, entries) = store.into_cells();
    Ok(Finished {
        made,
        nodes,
        entries,
    })
}
