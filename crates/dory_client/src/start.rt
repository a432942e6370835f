//! What a command line sets out to do.
ghost use Rattle.std.specs.Prelude.{◌≡◌};
ghost use Rattle.dory_cli.specs.Line.{IsLine};
ghost use Rattle.dory_client.specs.Start.{IsStart, start_of};

use dory_base::DocId;
use dory_cli::Line;
use dory_member::Command;
use dory_state::KeptState;

/// A command that acts in the state that is kept.
#[derive(Debug, Drop)]
pub enum Todo {
    /// To post a document whose text is the input.
    Post(DocId),
    /// To do what needs no input.
    Plain(Command),
}

/// What a line sets out to do.
#[derive(Drop)]
pub enum Start {
    /// To begin with this state.
    Init(KeptState),
    /// To act in the state that is kept.
    Act(Todo),
}

/// What a line sets out to do. A first state has seen nothing, and nothing is pending in it.
pub fn start_of(line: Line) -> Start
    requires { IsLine line }
    ensures value { result ≡ start_of line }
    ensures range { IsStart result }
{
    match line {
        Line::Init {
            folder,
            member,
            shape,
            master,
            serial,
        } => Start::Init(KeptState {
            folder,
            member,
            shape,
            master,
            next_serial: serial,
            seen: 0,
            used: 0,
            pending: None,
        }),
        Line::Post { doc } => Start::Act(Todo::Post(doc)),
        Line::Remove { doc } => Start::Act(Todo::Plain(Command::Remove { doc })),
        Line::Search { word } => Start::Act(Todo::Plain(Command::Search { word })),
        Line::Resume => Start::Act(Todo::Plain(Command::Resume)),
        Line::Latest => Start::Act(Todo::Plain(Command::Latest)),
        Line::Rotate => Start::Act(Todo::Plain(Command::Rotate)),
    }
}
