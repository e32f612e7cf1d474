// The kinds of records.
ghost use Rattle.std.specs.Prelude.{◌≡◌};
ghost use Rattle.log_record.specs.Spelling.{kind_of};

use crate::format::{ABORT, CHANGE, COMMIT, DROP_ROOT, JOIN, LIFT, PURGE, PUT_BACK, SPLIT};
use crate::record::Body;

/// The kind of a body, as it stands on disks.
pub(crate) fn kind_of(body: &Body) -> u8
    ensures { result ≡ kind_of body.now }
{
    match body {
        Body::Change { .. } => CHANGE,
        Body::PutBack { .. } => PUT_BACK,
        Body::Split { .. } => SPLIT,
        Body::Lift { .. } => LIFT,
        Body::Join { .. } => JOIN,
        Body::DropRoot { .. } => DROP_ROOT,
        Body::Purge { .. } => PURGE,
        Body::Commit { .. } => COMMIT,
        Body::Abort { .. } => ABORT,
    }
}
