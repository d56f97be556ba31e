// The console's commands in two kinds: those that ask, and change nothing, and those that act; and the one that makes a new bench.
#![tactic(auto)]

ghost use Rattle.std.specs.Prelude.{◌≡◌};
ghost use Rattle.kinds.specs.Kinds.{kind_of, renews};

use script::Command;

// The calls that change nothing.
#[derive(Clone, Copy)]
pub enum Query {
    Read,
    Line,
    Show,
    Ring,
    Peek,
    Check,
    State,
    Counters,
    Error,
}

// The calls that change the bench or what is lent.
#[derive(Clone, Copy)]
pub enum Act {
    New,
    Lend,
    Write,
    Grant,
    Frame,
    Burst,
    Send,
    Run,
    Tick,
    Poke,
}

#[derive(Clone, Copy)]
pub enum Kind {
    Asks(Query),
    Acts(Act),
}

// The kind of a command.
pub fn kind_of(command: Command) -> Kind
    ensures { result ≡ kind_of command }
{
    match command {
        Command::New => Kind::Acts(Act::New),
        Command::Lend => Kind::Acts(Act::Lend),
        Command::Read => Kind::Asks(Query::Read),
        Command::Write => Kind::Acts(Act::Write),
        Command::Line => Kind::Asks(Query::Line),
        Command::Grant => Kind::Acts(Act::Grant),
        Command::Frame => Kind::Acts(Act::Frame),
        Command::Burst => Kind::Acts(Act::Burst),
        Command::Send => Kind::Acts(Act::Send),
        Command::Run => Kind::Acts(Act::Run),
        Command::Tick => Kind::Acts(Act::Tick),
        Command::Show => Kind::Asks(Query::Show),
        Command::Ring => Kind::Asks(Query::Ring),
        Command::Poke => Kind::Acts(Act::Poke),
        Command::Peek => Kind::Asks(Query::Peek),
        Command::Check => Kind::Asks(Query::Check),
        Command::State => Kind::Asks(Query::State),
        Command::Counters => Kind::Asks(Query::Counters),
        Command::Error => Kind::Asks(Query::Error),
    }
}

// The command makes a new bench.
pub fn renews(command: Command) -> bool
    ensures { result ≡ renews command }
{
    match command {
        Command::New => true,
        Command::Lend => false,
        Command::Read => false,
        Command::Write => false,
        Command::Line => false,
        Command::Grant => false,
        Command::Frame => false,
        Command::Burst => false,
        Command::Send => false,
        Command::Run => false,
        Command::Tick => false,
        Command::Show => false,
        Command::Ring => false,
        Command::Poke => false,
        Command::Peek => false,
        Command::Check => false,
        Command::State => false,
        Command::Counters => false,
        Command::Error => false,
    }
}
