// Messages with arguments that all differ, and what each comes to.
use fuse_testing::Argument;
use fuse_testing::test_messages::{ACCEPTED, Asks, INIT_7_8, reply, request};
use fuse_wire::{Items, MemorySource, RequestId, Turn};
use std::process::Abort;

/// `struct fuse_open_out` of the number 0 without flags.
pub(crate) const OPENED: [u8; 16] = [0; 16];

/// `struct fuse_statfs_out` of no blocks and no inodes, blocks of 512 bytes, and names of at most 255.
pub(crate) const STATFS: [u8; 80] = [
    0, 0, 0, 0, 0, 0, 0, 0, 0, 0, 0, 0, 0, 0, 0, 0, 0, 0, 0, 0, 0, 0, 0, 0, 0, 0, 0, 0, 0, 0, 0, 0,
    0, 0, 0, 0, 0, 0, 0, 0, 0, 2, 0, 0, 255, 0, 0, 0, 0, 0, 0, 0, 0, 0, 0, 0, 0, 0, 0, 0, 0, 0, 0,
    0, 0, 0, 0, 0, 0, 0, 0, 0, 0, 0, 0, 0, 0, 0, 0, 0,
];

/// An argument of a call. `Word` and `Long` are the four and the eight bytes at this place of the arguments, lowest first.
#[derive(Clone, Copy)]
pub(crate) enum Wanted {
    /// The node of the message.
    Node,
    Word(usize),
    Long(usize),
    /// Of a SETATTR the seconds at this place, with the nanoseconds that go with them.
    Time(usize),
    /// Another number.
    Number(i128),
    Flag(bool),
    Absent,
    /// The present.
    Now,
}

/// A call of a method: its arguments but for names and data, and then these, each with a zero byte behind it.
pub(crate) type Call = (&'static str, &'static [Wanted], &'static [u8]);

/// What the sink takes for a message.
#[derive(Clone, Copy)]
pub(crate) enum Reply {
    Error(u8),
    Payload(&'static [u8]),
    /// A note with the mark 0, and no frame.
    Note,
}

/// A message, the calls that it comes to, and its reply. Its arguments count up from 1, but for those that are said.
pub(crate) struct Row {
    pub(crate) asks: Asks,
    pub(crate) calls: &'static [Call],
    pub(crate) reply: Reply,
}

/// The header of each message, before its length, opcode and id are put in: `unique`, `nodeid`, `uid`, `gid` and `pid`.
const HEADER: [u8; 40] = [
    0, 0, 0, 0, 0, 0, 0, 0, 0, 0xe2, 0xe3, 0xe4, 0xe5, 0xe6, 0xe7, 0xe8, 0xa1, 0xa2, 0xa3, 0xa4,
    0xa5, 0xa6, 0xa7, 0xa8, 0xb1, 0xb2, 0xb3, 0xb4, 0xc1, 0xc2, 0xc3, 0xc4, 0xd1, 0xd2, 0xd3, 0xd4,
    0, 0, 0, 0,
];

/// Who asks by it: the number of the request with this lowest byte, the user, the group and the process.
pub(crate) fn asker(id: u8) -> (u64, u32, u32, u32) {
    let unique = 0xe8e7_e6e5_e4e3_e200 | id as u64;
    (unique, 0xb4b3_b2b1, 0xc4c3_c2c1, 0xd4d3_d2d1)
}

/// The lowest byte of the id of the message of a row.
pub(crate) fn id_at(place: usize) -> u8 {
    place.min(200) as u8 + 2
}

/// The message of a row, with this lowest byte of its id.
pub(crate) fn message_of<R: AllocGlobal + Abort>(rt: &R, row: &Row, id: u8) -> Vec<u8> {
    let mut header = HEADER;
    header[8] = id;
    request(rt.alloc(), header, true, &row.asks).expect(rt, "there is memory")
}

/// The number of so many bytes at this place of the arguments of a message.
fn number_at(message: &[u8], place: usize, width: usize) -> i128 {
    let (mut number, mut shift) = (0u64, 0u32);
    for byte in message.iter().skip(place.saturating_add(40)).take(width) {
        number |= (*byte as u64).wrapping_shl(shift);
        shift = shift.wrapping_add(8);
    }
    number as i128
}

/// The argument that is wanted of the call that this message comes to.
pub(crate) fn argument_of(message: &[u8], wanted: Wanted) -> Argument {
    match wanted {
        Wanted::Node => Argument::Number(0xa8a7_a6a5_a4a3_a2a1),
        Wanted::Word(place) => Argument::Number(number_at(message, place, 4)),
        Wanted::Long(place) => Argument::Number(number_at(message, place, 8)),
        Wanted::Time(place) => {
            let seconds = number_at(message, place, 8);
            let nanos = number_at(message, (place / 2).saturating_add(40), 4);
            Argument::Number(seconds.saturating_mul(1_000_000_000).saturating_add(nanos))
        }
        Wanted::Number(number) => Argument::Number(number),
        Wanted::Flag(flag) => Argument::Flag(flag),
        Wanted::Absent => Argument::Absent,
        Wanted::Now => Argument::Now,
    }
}

/// A source of INIT and the messages of these rows.
pub(crate) fn source_of_rows<R: AllocGlobal + Abort>(rt: &R, rows: &[Row]) -> MemorySource {
    let mut turns = Vec::new(rt.alloc());
    put_turn(
        rt,
        &mut turns,
        INIT_7_8.to_vec(rt.alloc()).expect(rt, "there is memory"),
    );
    for (place, row) in rows.iter().enumerate() {
        put_turn(rt, &mut turns, message_of(rt, row, id_at(place)));
    }
    MemorySource::new(turns)
}

/// Puts a turn of this message at the end.
fn put_turn(rt: &impl Abort, turns: &mut Vec<Turn>, message: Vec<u8>) {
    let turn = Turn::Message(Items::from_vec(message));
    turns.push(turn).expect(rt, "there is memory");
}

/// Puts a frame of these bytes at the end.
fn put(rt: &impl Abort, frames: &mut Vec<Items<u8>>, bytes: Vec<u8>) {
    frames
        .push(Items::from_vec(bytes))
        .expect(rt, "there is memory");
}

/// The frames and the notes that the sink takes for INIT and the messages of these rows.
pub(crate) fn sent_for<R: AllocGlobal + Abort>(
    rt: &R,
    rows: &[Row],
) -> (Vec<Items<u8>>, Vec<(RequestId, u64)>) {
    let (mut frames, mut notes) = (Vec::new(rt.alloc()), Vec::new(rt.alloc()));
    put(
        rt,
        &mut frames,
        ACCEPTED.to_vec(rt.alloc()).expect(rt, "there is memory"),
    );
    for (place, row) in rows.iter().enumerate() {
        let id = asker(id_at(place)).0;
        let frame = match row.reply {
            Reply::Error(errno) => reply(rt.alloc(), id, errno, &[]),
            Reply::Payload(payload) => reply(rt.alloc(), id, 0, payload),
            Reply::Note => {
                notes.push((RequestId(id), 0)).expect(rt, "there is memory");
                continue;
            }
        };
        put(rt, &mut frames, frame.expect(rt, "there is memory"));
    }
    (frames, notes)
}
