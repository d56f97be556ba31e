// The requests in service, by rank: the last taken, one taken, one ended.
#![tactic(auto)]

ghost use Rattle.std.specs.Prelude.{◌≡◌, set};
ghost use Rattle.vic_service.specs.Service.{taken, ended, last_taken};

// How many ranks each controller has, VIC0 the lower ones, and how many there are.
pub const RANKS_EACH: usize = 32;

pub const RANKS: usize = 64;

// Of each rank, whether it is in service.
pub type Service = [bool; RANKS];

// The last taken, or the number of ranks where none is in service.
pub fn last_taken(service: &[bool]) -> usize
    ensures { result ≡ last_taken service.now }
{
    service
        .iter()
        .position(|in_service| *in_service)
        .unwrap_or(service.len())
}

// A rank marked as in service or not; there is none past the last.
fn marked(mut service: Service, rank: usize, in_service: bool) -> Service
    ensures { result ≡ set service rank in_service }
{
    if rank < RANKS {
        service[rank] = in_service;
    }
    service
}

// One taken; there is none past the last rank.
pub fn taken(service: Service, rank: usize) -> Service
    ensures { result ≡ taken service rank }
{
    marked(service, rank, true)
}

// One ended.
pub fn ended(service: Service, rank: usize) -> Service
    ensures { result ≡ ended service rank }
{
    marked(service, rank, false)
}
