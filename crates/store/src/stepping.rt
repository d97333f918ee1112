// One call by the number of its place.
ghost use Rattle.std.specs.Prelude.{◌≤◌, length};
ghost use Rattle.store.specs.Answers.{answer_shown, call_shown, result_shown};
ghost use Rattle.store.specs.Buffers.{capacity_of, written, result_written, Keeps};
ghost use Rattle.store.specs.Stores.{Answered};

use super::calls::{Answer, Call};
use super::store::Store;
use kinds::{Key, Refusal, Value};

impl<'a, K: Key, V: Value> Store<'a, K, V> {
    // Makes one call by the number of its place; an image is saved into the buffer from its first byte on.
    pub(crate) fn step(&mut self, call: &Call<&[u8], K, V>, out: &mut [u8]) -> Answer<V>
        requires { capacity_of call.now ≤ length out.old }
        ensures answered { Answered K.kind V.kind K.bytes V.bytes self.old self.new (call_shown K.bytes V.bytes call.now) (answer_shown V.bytes out.new result) }
        ensures buffer { Keeps (written result) out.old out.new }
    {
        match self.attempt(call, out) {
            Ok(answer) => answer,
            Err(refusal) => Answer::Refused(refusal),
        }
    }

    // Makes one call: what it answers, or why it is refused.
    fn attempt(&mut self, call: &Call<&[u8], K, V>, out: &mut [u8]) -> Result<Answer<V>, Refusal>
        requires { capacity_of call.now ≤ length out.old }
        ensures answered { Answered K.kind V.kind K.bytes V.bytes self.old self.new (call_shown K.bytes V.bytes call.now) (result_shown (answer_shown V.bytes out.new) result) }
        ensures buffer { Keeps (result_written result) out.old out.new }
    {
        match call {
            Call::Open(place) => {
                self.open_at(*place)?;
                Ok(Answer::Done)
            }
            Call::OpenFrom(place, from) => {
                self.open_from_at(*place, *from)?;
                Ok(Answer::Done)
            }
            Call::Put(place, key, value) => {
                let (nodes, entries) = self.put_at(*place, key, value)?;
                Ok(Answer::Took(nodes, entries))
            }
            Call::Remove(place, key) => {
                let (nodes, entries) = self.remove_at(*place, key)?;
                Ok(Answer::Took(nodes, entries))
            }
            Call::Union(place, other) => {
                let (nodes, entries) = self.union_at(*place, *other)?;
                Ok(Answer::Took(nodes, entries))
            }
            Call::Merge(place, base, theirs) => {
                let (nodes, entries) = self.merge_at(*place, *base, *theirs)?;
                Ok(Answer::Took(nodes, entries))
            }
            Call::Publish(place) => {
                self.publish_at(*place)?;
                Ok(Answer::Done)
            }
            Call::Abandon(place) => {
                self.abandon_at(*place)?;
                Ok(Answer::Done)
            }
            Call::Retire(place) => {
                self.retire(*place)?;
                Ok(Answer::Done)
            }
            Call::Load(place, image) => {
                let (nodes, entries) = self.load(*place, image)?;
                Ok(Answer::Took(nodes, entries))
            }
            Call::LookUp(place, key) => Ok(Answer::Found(self.look_up(*place, key)?)),
            Call::Count(place) => Ok(Answer::Counted(self.count(*place)?)),
            Call::Compare(place, other) => Ok(Answer::Equal(self.compare(*place, *other)?)),
            Call::Save(place, capacity) => {
                let length = self.save(*place, &mut out[..*capacity])?;
                Ok(Answer::Saved(length))
            },
            Call::Free => {
                let (nodes, entries) = self.free();
                Ok(Answer::Spare(nodes, entries))
            }
        }
    }
}
