// The calls of a store by the numbers of its places, and what they answer.
ghost use Rattle.std.specs.Prelude.{◌≡◌};
ghost use Rattle.store.specs.Buffers.{capacity_of, written};

use kinds::Refusal;

/// A call with its arguments; `I` is how an image is lent, as `&[u8]`.
#[derive(Clone, Copy)]
pub enum Call<I, K, V> {
    Open(u32),
    OpenFrom(u32, u32),
    Put(u32, K, V),
    Remove(u32, K),
    // with a published place
    Union(u32, u32),
    // over a published base, with a published place
    Merge(u32, u32, u32),
    Publish(u32),
    Abandon(u32),
    Retire(u32),
    // of an image
    Load(u32, I),
    LookUp(u32, K),
    Count(u32),
    Compare(u32, u32),
    // into a buffer of so many bytes
    Save(u32, usize),
    Free,
}

// What a call answers.
#[derive(Clone, Copy, Debug, PartialEq, Eq)]
pub enum Answer<V> {
    Done,
    // so many nodes and entries
    Took(usize, usize),
    Found(Option<V>),
    Counted(usize),
    Equal(bool),
    // so many bytes, which stand in the buffer
    Saved(usize),
    // so many nodes and entries are free
    Spare(usize, usize),
    Refused(Refusal),
}

impl<I, K, V> Call<I, K, V> {
    /// How many bytes of a buffer it is lent.
    pub fn capacity(&self) -> usize
        ensures { result ≡ capacity_of self.now }
    {
        match self {
            Call::Save(_, capacity) => *capacity,
            _ => 0,
        }
    }
}

impl<V> Answer<V> {
    // How many bytes stand in the buffer for it.
    pub fn written(&self) -> usize
        ensures { result ≡ written self.now }
    {
        match self {
            Answer::Saved(length) => *length,
            _ => 0,
        }
    }
}
