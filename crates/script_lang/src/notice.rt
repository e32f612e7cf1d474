// The lines of output that name no session, each of which the program writes of itself.
ghost use Rattle.std.specs.Prelude.{◌≡◌, ◌≤◌, ◌+◌, ◌++◌, ◌∷◌, [], ℕ, List, None, length};
ghost use Rattle.script_lang.specs.Pieces.{Holds};
ghost use Rattle.script_lang.specs.Notices.{Notice, notice_text, NoticeFits};
ghost use Rattle.script_lang.specs.Notices.Notice.{Opened, Formatted, Refused, Damaged, Pair, Made, End, Usage, ReadFault, DiskFault, NoMemory, NotFormatted, AlreadyFormatted};
ghost use Rattle.script_lang.specs.Replies.{reply_of};
ghost use Rattle.script_lang.specs.Text.{IsLine};
ghost use Rattle.script_lang.specs.declared.reply.TheConstants.{REPLY};

use crate::text::{put_text, put_wide, put_with_number};

/// All pairs of a map were put.
pub const END: &[u8] = b"end\n";
/// The words were no command.
pub const USAGE: &[u8] = b"lean: usage\n";
/// The script could not be read on.
pub const READ_FAULT: &[u8] = b"lean: read fault\n";
/// The disk failed.
pub const DISK_FAULT: &[u8] = b"lean: disk fault\n";
/// Memory was refused.
pub const NO_MEMORY: &[u8] = b"lean: no memory\n";
/// The disk has no valid master.
pub const NOT_FORMATTED: &[u8] = b"lean: not formatted\n";
/// The disk has a valid master already.
pub const ALREADY_FORMATTED: &[u8] = b"lean: already formatted\n";

/// The fixed lines are these.
pub fn fixed_lines()
    ensures end { END.now ≡ notice_text End ++ 10 ∷ [] }
    ensures usage { USAGE.now ≡ notice_text Usage ++ 10 ∷ [] }
    ensures read_fault { READ_FAULT.now ≡ notice_text ReadFault ++ 10 ∷ [] }
    ensures disk_fault { DISK_FAULT.now ≡ notice_text DiskFault ++ 10 ∷ [] }
    ensures no_memory { NO_MEMORY.now ≡ notice_text NoMemory ++ 10 ∷ [] }
    ensures not_formatted { NOT_FORMATTED.now ≡ notice_text NotFormatted ++ 10 ∷ [] }
    ensures already_formatted { ALREADY_FORMATTED.now ≡ notice_text AlreadyFormatted ++ 10 ∷ [] }
{}

/// Such a line is read as no reply, and is one line.
pub fn notices_are_no_replies()
    ensures { (line : Notice) → NoticeFits line → (reply_of (notice_text line) ≡ None) × IsLine (notice_text line) }
{}

/// Writes the line that tells of an opening: the new generation, the transactions that were found committed, and
/// those that were undone. The answer is how many bytes that are.
pub fn opened_bytes(generation: u64, winners: u64, undone: u64, into: &mut [u8]) -> usize
    requires { REPLY ≤ length into.old }
    ensures { Holds (notice_text (Opened generation winners undone) ++ 10 ∷ []) into.old into.new result }
{
    let at = put_with_number(into, 0, b"open ", generation);
    let at = put_with_number(into, at, b" winners ", winners);
    let at = put_with_number(into, at, b" undone ", undone);
    put_text(into, at, b"\n")
}

/// Writes the line that tells of a formatted disk: its workers, its pages, and the blocks of a log.
pub fn formatted_bytes(workers: u32, pages: u32, blocks: u32, into: &mut [u8]) -> usize
    requires { REPLY ≤ length into.old }
    ensures { Holds (notice_text (Formatted workers pages blocks) ++ 10 ∷ []) into.old into.new result }
{
    let at = put_with_number(into, 0, b"formatted ", workers as u64);
    let at = put_with_number(into, at, b" ", pages as u64);
    let at = put_with_number(into, at, b" ", blocks as u64);
    put_text(into, at, b"\n")
}

/// Writes the last line of a run whose line of this number was refused.
pub fn refused_bytes(line: u64, into: &mut [u8]) -> usize
    requires { REPLY ≤ length into.old }
    ensures { Holds (notice_text (Refused line) ++ 10 ∷ []) into.old into.new result }
{
    let at = put_with_number(into, 0, b"lean: line ", line);
    put_text(into, at, b" refused\n")
}

/// Writes the last line of a run that found an area damaged, at this place.
pub fn damaged_bytes(area: u32, place: u64, into: &mut [u8]) -> usize
    requires { REPLY ≤ length into.old }
    ensures { Holds (notice_text (Damaged area place) ++ 10 ∷ []) into.old into.new result }
{
    let at = put_with_number(into, 0, b"lean: damaged area ", area as u64);
    let at = put_with_number(into, at, b" place ", place);
    put_text(into, at, b"\n")
}

/// Writes the line of a key and its value. The answer is how many bytes that are.
pub fn pair_bytes(key: u64, value: u64, into: &mut [u8]) -> usize
    requires { REPLY ≤ length into.old }
    ensures { Holds (notice_text (Pair key value) ++ 10 ∷ []) into.old into.new result }
{
    let at = put_with_number(into, 0, b"pair ", key);
    let at = put_with_number(into, at, b" ", value);
    put_text(into, at, b"\n")
}

/// Writes the line of a workload that was made: its transactions, the draws that were refused, the pairs of the map, and the sum of their values.
pub fn made_bytes(count: u32, refused: u64, pairs: u64, sum: u128, into: &mut [u8]) -> usize
    requires { REPLY ≤ length into.old }
    ensures { Holds (notice_text (Made count refused pairs sum) ++ 10 ∷ []) into.old into.new result }
{
    let at = put_with_number(into, 0, b"made ", count as u64);
    let at = put_with_number(into, at, b" refused ", refused);
    let at = put_with_number(into, at, b" pairs ", pairs);
    let at = put_wide(into, at, b" sum ", sum);
    put_text(into, at, b"\n")
}
