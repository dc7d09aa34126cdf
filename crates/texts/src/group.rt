//! The order in which the groups of a netlist's records come.
ghost use Rattle.std.specs.Prelude.{◌≡◌};
ghost use Rattle.texts.specs.Groups.{next};

use crate::fault::Cause;

/// The group that has been reached.
#[derive(Clone, Copy, Debug, PartialEq, Eq)]
pub(crate) enum Group {
    Inputs,
    Gates,
    Outputs,
}

/// What a record of the netlist declares.
// No group: which kinds of record a group still takes is told by both together, case by case.
#[derive(Clone, Copy, Debug, PartialEq, Eq)]
pub(crate) enum RecordKind {
    Input,
    Gate,
    Output,
}

// The group after a record of this kind. It is refused where a later one has begun.
pub(crate) fn next_group(group: Group, kind: RecordKind) -> Result<Group, Cause>
    ensures { result ≡ next group kind }
{
    match (group, kind) {
        (Group::Inputs, RecordKind::Input) => Ok(Group::Inputs),
        (Group::Inputs | Group::Gates, RecordKind::Gate) => Ok(Group::Gates),
        (_, RecordKind::Output) => Ok(Group::Outputs),
        (Group::Gates | Group::Outputs, RecordKind::Input) | (Group::Outputs, RecordKind::Gate) =>
            Err(Cause::Order),
    }
}
