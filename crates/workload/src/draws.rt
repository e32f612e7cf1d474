// What a word asks.
ghost use Rattle.std.specs.Prelude.{◌≡◌};
ghost use Rattle.workload.specs.Draws.{draw};
ghost use Rattle.workload.specs.Inside.{asked, drawn_from};

use map_model::Call;
use rand_core::utils::NextWord;
use rand_pcg::Lcg64Xsh32;

/// The place of a transaction's last line: before it stand the begin and eight draws.
pub(crate) const LAST: u32 = 9;

/// What the line at this place of a transaction asks. For a draw the next word is taken.
pub(crate) fn call_at(place: u32, words: &mut Lcg64Xsh32) -> Call
    ensures call { result ≡ asked place words.old }
    ensures words { words.new ≡ drawn_from place words.old }
{
    match place {
        0 => Call::Begin,
        LAST => Call::Commit,
        _ => drawn_call(words.next_word()),
    }
}

fn drawn_call(word: u32) -> Call
    ensures { result ≡ draw word }
{
    let key = u64::from(word % 1000);
    match word / 65536 % 4 {
        0 => Call::Get { key },
        3 => Call::Del { key },
        _ => Call::Put {
            key,
            value: u64::from(word),
        },
    }
}
