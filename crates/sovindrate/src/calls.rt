// The calls of a script: those that its lines ask for, and those of the account at its end.
ghost use Rattle.std.specs.Prelude.{◌≡◌, ◌++◌, take, length, OnOk};
ghost use Rattle.sovindrate.specs.Closing.{account_calls};

use super::script::{Ask, Target};
use super::steps::Step;
use model::PLACES;
use std::alloc::{AllocError, Global};
use store::Call;

// How many bytes a save is lent, where any image fits in so many.
fn lent(target: Target, room: usize) -> usize {
    match target {
        Target::Printed | Target::File(_) => room,
        // an image that fits in more fits in these too
        Target::PrintedFrom(bytes) => room.min(bytes as usize),
    }
}

// The calls that the lines ask for, where any image fits in so many bytes.
pub fn calls_of<'a, K: Copy, V: Copy>(
    heap: Global,
    steps: &'a [Step<'a, K, V>],
    room: usize,
) -> Result<Vec<Call<&'a [u8], K, V>>, AllocError> {
    let mut calls = Vec::new(heap);
    for step in steps {
        match &step.asks {
            Ok(Ask::Call(call)) => calls.push(call.clone()?)?,
            Ok(Ask::Load(place, _)) => calls.push(Call::Load(*place, step.image.as_slice()))?,
            Ok(Ask::Save(place, target)) => calls.push(Call::Save(*place, lent(*target, room)))?,
            Err(_) => {}
        }
    }
    Ok(calls)
}

// Adds the calls that ask for the account: of each place how many settings it has and its image, and then what is free.
pub fn ask_account<'a, K: Copy, V: Copy>(
    calls: &mut Vec<Call<&'a [u8], K, V>>,
    room: usize,
) -> Result<(), AllocError>
    ensures asked { OnOk result (calls.new.items ≡ calls.old.items ++ account_calls room) }
    ensures kept { take (length calls.old.items) calls.new.items ≡ calls.old.items }
{
    for place in 0..PLACES as u32 {
        calls.push(Call::Count(place))?;
        calls.push(Call::Save(place, room))?;
    }
    calls.push(Call::Free)?;
    Ok(())
}
