// The base of a page: its valid slot of the greatest generation and number.
ghost use Rattle.std.specs.Prelude.{◌≡◌, ◌<◌, Err, Option, IfOk};
ghost use Rattle.lean_disk.specs.Faults.{HasCause};
ghost use Rattle.lean_disk.specs.Moments.{OnlyReads};
ghost use Rattle.lean_disk.specs.Story.{Tells, areas_of};
ghost use Rattle.disk_image.specs.Breaks.{HasNoBase};
ghost use Rattle.page_store.specs.Bases.{IsAhead, IsBase, IsOwn};
ghost use Rattle.page_store.specs.Inside.{IsChosen, IsNewest, is_ahead, is_older_page, page_of};

use crate::slot::{Bounds, Held, Seal, fetch_at};
use disk_image::{Master, Node};
use lean_disk::Part;

/// A page as it was saved last, and the slot in which it stands.
#[derive(Drop)]
pub struct Base {
    pub node: Node,
    pub slot: u32,
}

/// The base of a page, and whether its other slot holds the page as a later generation has saved it.
#[derive(Drop)]
pub struct Seen {
    pub base: Base,
    pub ahead: bool,
}

/// Why a page's base could not be fetched.
#[derive(Clone, Copy, Debug, PartialEq, Eq)]
pub enum Unread {
    /// Neither slot holds a page of the master's generation or an earlier one.
    Damaged,
    DiskFault,
}

// The page, if it is valid.
fn page_of(held: Held) -> Option<Node>
    ensures { result ≡ page_of held }
{
    match held {
        Held::Page(node) => Some(node),
        Held::NoPage(_) => None,
    }
}

// Whether a later generation has saved it.
fn is_ahead(held: &Held) -> bool
    ensures { result ≡ is_ahead held.now }
{
    match held {
        Held::NoPage(Seal::LaterGeneration) => true,
        _ => false,
    }
}

// By generation, then by number.
fn is_older(one: &Node, other: &Node) -> bool
    ensures { result ≡ is_older_page one.now other.now }
{
    one.generation() < other.generation()
        || (one.generation() == other.generation() && one.gsn() < other.gsn())
}

// The newer of what the two slots hold.
fn newer(first: Option<Node>, second: Option<Node>) -> Option<Base>
    ensures { IsNewest first second result }
{
    match (first, second) {
        (None, None) => None,
        (Some(node), None) => Some(Base { node, slot: 0 }),
        (None, Some(node)) => Some(Base { node, slot: 1 }),
        (Some(node), Some(other)) => {
            if is_older(&node, &other) {
                return Some(Base {
                    node: other,
                    slot: 1,
                });
            }
            Some(Base { node, slot: 0 })
        }
    }
}

// The base among what two slots hold.
fn choose(first: Held, second: Held) -> Option<Seen>
    ensures { IsChosen first second result }
{
    let ahead = is_ahead(&first) || is_ahead(&second);
    match newer(page_of(first), page_of(second)) {
        Some(base) => Some(Seen { base, ahead }),
        None => None,
    }
}

/// Fetches the base of a page, by the master that counts, and tells what its other slot holds.
pub fn fetch_seen<P: Part>(dev: &mut P, master: &Master, page: u32) -> Result<Seen, Unread>
    requires page { page < master.now.pages }
    requires seat { (P.seat dev.old).area ≡ 1 }
    ensures base { IfOk result (λ seen. Tells (P.story dev.old) 1 → IsBase master.now page (areas_of (P.story dev.old)) seen.base) }
    ensures ahead { IfOk result (λ seen. Tells (P.story dev.old) 1 → IsAhead master.now page (areas_of (P.story dev.old)) seen.base.slot seen.ahead) }
    ensures own { IfOk result (λ seen. IsOwn master.now page seen.base) }
    ensures reads { OnlyReads (P.story dev.old) (P.story dev.new) }
    ensures seat { P.seat dev.new ≡ P.seat dev.old }

    ensures cause_damaged { result ≡ Err Unread.Damaged → Tells (P.story dev.old) 1 → HasNoBase master.now (areas_of (P.story dev.old)) page }
    ensures cause_disk_fault { HasCause (P.faults dev.old) (P.faults dev.new) (result ≡ Err Unread.DiskFault) }
{
    let bounds = Bounds {
        pages: master.pages,
        generation: master.generation,
    };
    let mut buffer = [0; 1024];
    let Ok(first) = fetch_at(dev, bounds, page, 0, &mut buffer) else {
        return Err(Unread::DiskFault);
    };
    let Ok(second) = fetch_at(dev, bounds, page, 1, &mut buffer) else {
        return Err(Unread::DiskFault);
    };
    match choose(first, second) {
        Some(seen) => Ok(seen),
        None => Err(Unread::Damaged),
    }
}

/// Fetches the base of a page, by the master that counts.
pub fn fetch<P: Part>(dev: &mut P, master: &Master, page: u32) -> Result<Base, Unread>
    requires page { page < master.now.pages }
    requires seat { (P.seat dev.old).area ≡ 1 }
    ensures base { IfOk result (λ base. Tells (P.story dev.old) 1 → IsBase master.now page (areas_of (P.story dev.old)) base) }
    ensures own { IfOk result (IsOwn master.now page) }
    ensures reads { OnlyReads (P.story dev.old) (P.story dev.new) }
    ensures seat { P.seat dev.new ≡ P.seat dev.old }

    ensures cause_damaged { result ≡ Err Unread.Damaged → Tells (P.story dev.old) 1 → HasNoBase master.now (areas_of (P.story dev.old)) page }
    ensures cause_disk_fault { HasCause (P.faults dev.old) (P.faults dev.new) (result ≡ Err Unread.DiskFault) }
{
    match fetch_seen(dev, master, page) {
        Ok(seen) => Ok(seen.base),
        Err(why) => Err(why),
    }
}
