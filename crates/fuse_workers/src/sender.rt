// The sender, which alone has the sink and the book.
ghost use Rattle.std.specs.Prelude.{◌≡◌, ◌++◌, List, []};
ghost use Rattle.fuse_line.specs.Hand.{hand};
ghost use Rattle.fuse_line.specs.declared.hand.Kind.TheVariants.{First, Inner};
ghost use Rattle.fuse_line.specs.Tells.{IsSettled};
ghost use Rattle.fuse_reply.specs.Parcel.{is_prompt};
ghost use Rattle.fuse_reply.specs.declared.parcel.Parcel.{Parcel as Goes};
ghost use Rattle.fuse_workers.specs.Relays.{IsRelayed, Relays, relay_of};

use crate::relay::Relay;
use fuse_line::{Line, Pass};
use fuse_reply::Parcel;
use fuse_wire::Sink;
use std::sync::Wait;
use std::sync::atomic::AtomicBool;

/// The end that frames go out by, with its book, lent to the sender, and its pass.
#[derive(Drop)]
pub(crate) struct LentRelay<'a, K: Sink> {
    /// The end that is lent.
    pub relay: &'a mut Relay<K>,
    /// The sender's pass of the line of frames.
    pub pass: Pass<Parcel>,
}

/// Hands parcels on, until there is none left once it was told that no more come.
fn send_parcels<R: Wait, K: Sink>(
    rt: &R,
    frames: &Line<Parcel>,
    pass: &mut Pass<Parcel>,
    relay: &mut Relay<K>,
    no_more: &AtomicBool,
)
    requires line { pass.old.line ≡ frames.now }
    requires hand { pass.old.hand ≡ hand Inner 0 [] [] }
    ensures line { pass.new.line ≡ frames.now }
    ensures relayed { IsRelayed pass.new.hand (relay_of relay.old.outlet relay.old.book)
        (relay_of relay.new.outlet relay.new.book) }
{
    for _ in rt.forever() {
        let Some(parcel) = frames.pop_waiting(rt, pass, no_more) else {
            return;
        };
        relay.deliver_parcel(parcel);
    }
    unreachable!()
}

/// What the sender does with the end that it is lent.
pub(crate) fn serve_sink<'a, R: Wait, K: Sink>(
    rt: &R,
    frames: &Line<Parcel>,
    lent: LentRelay<'a, K>,
    no_more: &AtomicBool,
) -> LentRelay<'a, K>
    requires line { lent.pass.line ≡ frames.now }
    requires hand { lent.pass.hand ≡ hand Inner 0 [] [] }
    ensures same { result.relay.ghost_name ≡ lent.entry.relay.ghost_name }
    ensures line { result.pass.line ≡ frames.now }
    ensures relayed { IsRelayed result.pass.hand (relay_of lent.entry.relay.now.outlet lent.entry.relay.now.book)
        (relay_of result.relay.now.outlet result.relay.now.book) }
{
    let LentRelay { relay, mut pass } = lent;
    send_parcels(rt, frames, &mut pass, relay, no_more);
    LentRelay { relay, pass }
}

/// Hands the parcels on that the sender left. Nobody else has an inner pass.
pub(crate) fn send_rest<R: Wait, K: Sink>(
    rt: &R,
    frames: &Line<Parcel>,
    pass: &mut Pass<Parcel>,
    relay: &mut Relay<K>,
)
    requires line { pass.old.line ≡ frames.now }
    requires first { pass.old.hand.kind ≡ First }
    ensures line { pass.new.line ≡ frames.now }
    ensures more { (more : List Goes) × (pass.new.hand ≡ hand First pass.old.hand.others pass.old.hand.put
        (pass.old.hand.taken ++ more)) × Relays more (relay_of relay.old.outlet relay.old.book)
        (relay_of relay.new.outlet relay.new.book) }
    ensures settled { IsSettled is_prompt pass.new.hand }
{
    for _ in rt.forever() {
        let Some(parcel) = frames.pop(rt, pass) else {
            return;
        };
        relay.deliver_parcel(parcel);
    }
    unreachable!()
}
