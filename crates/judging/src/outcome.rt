// What an outcome comes to: whether it ends a sleep, and which operation it names.
ghost use Rattle.std.specs.Prelude.{◌≡◌, ◌%◌};
ghost use Rattle.model.specs.Judge.{decided_at, finishes as finishes_with};

use model::{Outcome, Position};

pub fn finishes(outcome: Outcome) -> bool
    ensures { result ≡ finishes_with outcome }
{
    outcome != Outcome::Sleep
}

// The operation that decided, from the position where judging ended; its position is taken within 256.
pub fn decided(outcome: Outcome, position: usize) -> Position
    ensures { result ≡ decided_at outcome (position % 256) }
{
    match outcome {
        Outcome::Done => None,
        _ => Some((position % 256) as u8),
    }
}
