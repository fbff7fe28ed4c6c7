// The kinds of calls, which standard input names by numbers: any number but 1 to 12 is a refinement's.

// The calls for a slip and for the shelf have no grid.
#[derive(Clone, Copy, Debug, PartialEq, Eq)]
pub enum Call {
    PrintSheet,
    Sheet,
    File,
    Current,
    OnGrid(GridCall),
}

#[derive(Clone, Copy, Debug, PartialEq, Eq)]
pub enum GridCall {
    Check,
    Boundary,
    Label,
    LabelBuiltIn,
    From(StartCall),
}

// The calls on a grid that have a start.
#[derive(Clone, Copy, Debug, PartialEq, Eq)]
pub enum StartCall {
    Run,
    Nearest,
    RunWithTrail,
    ReadTrail,
    Refine,
}

impl From<u64> for Call {
    fn from(number: u64) -> Call {
        match number {
            1 => Call::PrintSheet,
            2 => Call::Sheet,
            3 => Call::File,
            4 => Call::Current,
            5 => Call::OnGrid(GridCall::Check),
            6 => Call::OnGrid(GridCall::Boundary),
            7 => Call::OnGrid(GridCall::Label),
            8 => Call::OnGrid(GridCall::LabelBuiltIn),
            9 => Call::OnGrid(GridCall::From(StartCall::Run)),
            10 => Call::OnGrid(GridCall::From(StartCall::Nearest)),
            11 => Call::OnGrid(GridCall::From(StartCall::RunWithTrail)),
            12 => Call::OnGrid(GridCall::From(StartCall::ReadTrail)),
            _ => Call::OnGrid(GridCall::From(StartCall::Refine)),
        }
    }
}
