// The order of the requests of one interrupt controller: an input's rank, and the lowest rank that is raised.
#![tactic(auto)]

ghost use Rattle.std.specs.Prelude.{◌≡◌};
ghost use Rattle.vic_rank.specs.Rank.{names, slot_of, rank_in, lowest_rank};

// A vector control is enabled and names an input.
#[tactic(auto, unfolding(crate::specs::Rank::names))]
fn names(input: u8, control: u8) -> bool
    ensures { result ≡ names input control }
{
    control / 0x20 % 2 == 1 && control % 16 == input
}

// The slot of an input, 16 where it has none.
fn slot_of(controls: &[u8], input: u8) -> usize
    ensures { result ≡ slot_of controls.now input }
{
    controls
        .iter()
        .position(|control| names(input, *control))
        .unwrap_or(controls.len())
}

// An input's rank.
#[tactic(auto, unfolding(crate::specs::Rank::rank_in))]
fn rank_in(controls: &[u8], input: u8) -> usize
    ensures { result ≡ rank_in controls.now input }
{
    let slot = slot_of(controls, input);
    if slot < 16 {
        slot
    } else {
        16 + usize::from(input)
    }
}

// The lowest rank that is raised, 32 where none is.
#[tactic(auto, unfolding(crate::specs::Rank::lowest_among))]
pub fn lowest_rank(controls: &[u8], status: u16) -> usize
    ensures { result ≡ lowest_rank controls.now status }
{
    let mut lowest = 32;
    for input in 0..16u8 {
        if (status >> input) % 2 == 1 {
            lowest = rank_in(controls, input).min(lowest);
        }
    }
    lowest
}
