// The runner of the vectors: what each makes is compared with its bytes.
ghost use Rattle.std.specs.Prelude.{◌≡◌, bit_and};
ghost use Rattle.fuse_wire.specs.Flags.{FOPEN_PASSTHROUGH};

use crate::asserts::expect_same;
use crate::vectors::{
    Answer, Fetch, Made, News, Vector, conflicts, fetches, notices, replies, requests, texts, times,
};
use bitflags::Flags;
use fuse_args::ArgumentIterator;
use fuse_config::{Config, MountOption, check_option_conflicts, option_to_string};
use fuse_notify::{Notice, NoticeError, deliver};
use fuse_reply::{
    OutEnd, Replied, ReplyAttr, ReplyBmap, ReplyCreate, ReplyData, ReplyDirectory, ReplyEmpty,
    ReplyEntry, ReplyLock, ReplyOpen, ReplyStatfs, ReplyWrite, ReplyXattr,
};
use fuse_request::{AnyRequest, Init, MkNod, Operation};
use fuse_wire::{
    Duration, Errno, FileAttr, FileHandle, FileType, FopenFlags, Generation, INodeNo, Items,
    MemorySink, NoMemory, PollHandle, RequestId, SystemTime, system_time_from_time,
    time_from_system_time,
};
use std::alloc::{AllocError, Global};
use std::process::Abort;

#[test]
fn each_vector_makes_its_bytes(rt: HostRuntime) -> Result<(), NoMemory> {
    expect_bytes(&rt, requests())?;
    expect_bytes(&rt, replies())?;
    expect_bytes(&rt, notices())?;
    expect_bytes(&rt, fetches())?;
    expect_bytes(&rt, times())?;
    expect_bytes(&rt, conflicts())
}

/// A text names the option, whose text it is.
#[test]
fn each_option_has_its_text(rt: HostRuntime) -> Result<(), NoMemory> {
    for (shown, text) in texts() {
        let option = MountOption::from_str(rt.alloc(), text)?;
        let found = format!(in rt.alloc(); "{option:?}")?;
        let back = option_to_string(rt.alloc(), &option)?;
        expect_same(&rt, &(found.as_str(), back.as_str()), &(*shown, *text));
    }
    Ok(())
}

/// These parts joined.
fn joined(alloc: Global, parts: &[&[u8]]) -> Result<Vec<u8>, AllocError> {
    let mut bytes = Vec::new(alloc);
    for part in parts {
        bytes.extend_from_slice(part)?;
    }
    Ok(bytes)
}

/// Each of the vectors makes its bytes.
fn expect_bytes<R: Abort + AllocGlobal>(rt: &R, vectors: &[Vector]) -> Result<(), NoMemory> {
    for (name, made, parts) in vectors {
        let expected = joined(rt.alloc(), parts)?;
        let bytes = make(rt, rt.alloc(), made)?;
        expect_same(
            rt,
            &(*name, bytes.as_slice()),
            &(*name, expected.as_slice()),
        );
    }
    Ok(())
}

/// The bytes that this makes.
fn make<R: Abort + AllocGlobal>(rt: &R, alloc: Global, made: &Made) -> Result<Vec<u8>, NoMemory> {
    match made {
        Made::Reply(answer) => bytes_of(alloc, answered(rt, alloc, answer)),
        Made::Notice(news) => bytes_of(alloc, sent(rt, alloc, news)),
        Made::Request(message, length) => asked(alloc, message.get(..*length).unwrap_or(&[])),
        Made::Fetched(bytes, fetches) => fetched(alloc, bytes, fetches),
        Made::Time(nanos) => seconds_and_nanoseconds(alloc, *nanos),
        Made::SecondsAndNanoseconds(secs, nanos) => nanoseconds(alloc, *secs, *nanos),
        Made::Conflict(texts) => conflicting(alloc, texts),
    }
}

/// The seconds and nanoseconds of a time, as a text.
fn seconds_and_nanoseconds(alloc: Global, nanos: i128) -> Result<Vec<u8>, NoMemory> {
    let (secs, nanos) = time_from_system_time(&SystemTime(nanos));
    Ok(format!(in alloc; "{secs} {nanos}")?.into_bytes())
}

/// The nanoseconds of the time of these seconds and nanoseconds, as a text.
fn nanoseconds(alloc: Global, secs: i64, nanos: u32) -> Result<Vec<u8>, NoMemory> {
    let time = system_time_from_time(secs, nanos);
    Ok(format!(in alloc; "{}", time.0)?.into_bytes())
}

/// The frames that a sink took, one behind the other. The sink is let go.
fn bytes_of(alloc: Global, sink: MemorySink) -> Result<Vec<u8>, NoMemory> {
    let bytes = frames(alloc, &sink);
    drop(sink);
    bytes
}

/// The frames that a sink took, one behind the other.
fn frames(alloc: Global, sink: &MemorySink) -> Result<Vec<u8>, NoMemory> {
    let mut bytes = Vec::new(alloc);
    for frame in sink.frames() {
        bytes.extend_from_slice(frame.as_slice())?;
    }
    Ok(bytes)
}

/// The request that is answered.
const ID: RequestId = RequestId(0xdead_beef);

const GENERATION: Generation = Generation(0xaa);

/// Attributes of an inode whose blocks have this size.
fn attributes(blksize: u32) -> FileAttr {
    let time = SystemTime(0x1234 * 1_000_000_000 + 0x5678);
    FileAttr {
        ino: INodeNo(0x11),
        size: 0x22,
        blocks: 0x33,
        atime: time,
        mtime: time,
        ctime: time,
        crtime: time,
        kind: FileType::RegularFile,
        perm: 0o644,
        nlink: 0x55,
        uid: 0x66,
        gid: 0x77,
        rdev: 0x88,
        blksize,
        flags: 0x99,
    }
}

/// Flags of an open file. None of them is `FOPEN_PASSTHROUGH`.
fn open_flags(rt: &impl Abort, bits: u32) -> FopenFlags
    ensures { bit_and result.0 FOPEN_PASSTHROUGH ≡ 0 }
{
    assert_eq!(rt; bits & 0x80, 0);
    FopenFlags::from_bits_retain(bits)
}

/// A sink that took the reply.
fn answered(rt: &impl Abort, alloc: Global, answer: &Answer) -> MemorySink {
    let mut sink = MemorySink::new(alloc, Vec::new(alloc));
    let end = replied(rt, alloc, answer).into_out().send(&mut sink);
    expect_same(rt, &end, &OutEnd::Written);
    sink
}

/// The reply, spent by its own kind.
fn replied(rt: &impl Abort, alloc: Global, answer: &Answer) -> Replied {
    let ttl = Duration::new(0x8765, 0x4321);
    match answer {
        Answer::Empty => ReplyEmpty::new(alloc, ID).ok(),
        Answer::Error(code) => ReplyEmpty::new(alloc, ID).error(Errno::from_i32(*code)),
        Answer::Data(bytes) => ReplyData::new(alloc, ID).data(bytes),
        Answer::XattrData(bytes) => ReplyXattr::new(alloc, ID).data(bytes),
        Answer::XattrSize(size) => ReplyXattr::new(alloc, ID).size(*size),
        Answer::Entry(size) => ReplyEntry::new(alloc, ID).entry(
            &ttl,
            &attributes(*size),
            GENERATION,
        ),
        Answer::Attr(size) => ReplyAttr::new(alloc, ID).attr(&ttl, &attributes(*size)),
        Answer::Created(size, fh, flags) => {
            let flags = open_flags(rt, *flags);
            let attr = attributes(*size);
            ReplyCreate::new(alloc, ID).created(&ttl, &attr, GENERATION, FileHandle(*fh), flags)
        }
        Answer::Opened(fh, flags) => {
            ReplyOpen::new(alloc, ID).opened(FileHandle(*fh), open_flags(rt, *flags))
        }
        Answer::Written(size) => ReplyWrite::new(alloc, ID).written(*size),
        Answer::Bmap(block) => ReplyBmap::new(alloc, ID).bmap(*block),
        Answer::Statfs([blocks, bfree, bavail, files, ffree], [bsize, namelen, frsize]) => {
            ReplyStatfs::new(alloc, ID).statfs(
                *blocks, *bfree, *bavail, *files, *ffree, *bsize, *namelen, *frsize,
            )
        }
        Answer::Locked(start, end, typ, pid) => {
            ReplyLock::new(alloc, ID).locked(*start, *end, *typ, *pid)
        }
        Answer::Directory(entries) => listed(rt, alloc, entries).ok(),
    }
}

/// A listing of 4096 bytes with these entries.
fn listed(
    rt: &impl Abort,
    alloc: Global,
    entries: &[(u64, u64, FileType, &[u8])],
) -> ReplyDirectory {
    let mut reply = ReplyDirectory::new(alloc, ID, 4096);
    for (ino, offset, kind, name) in entries {
        assert!(rt; name.len() <= 255);
        let full = reply.add(INodeNo(*ino), *offset, *kind, name);
        expect_same(rt, &full, &Ok(false));
    }
    reply
}

/// A notice of this.
fn notice(alloc: Global, news: &News) -> Result<Notice, NoticeError> {
    match news {
        News::Poll(handle) => Ok(Notice::poll(alloc, PollHandle(*handle))),
        News::InvalInode(ino, offset, len) => {
            Ok(Notice::inval_inode(alloc, INodeNo(*ino), *offset, *len))
        }
        News::InvalEntry(parent, name) => Notice::inval_entry(alloc, INodeNo(*parent), name),
        News::Store(ino, offset, bytes) => Notice::store(alloc, INodeNo(*ino), *offset, bytes),
        News::Delete(parent, child, name) => {
            Notice::delete(alloc, INodeNo(*parent), INodeNo(*child), name)
        }
    }
}

/// A sink that took the notice.
fn sent(rt: &impl Abort, alloc: Global, news: &News) -> MemorySink {
    let mut sink = MemorySink::new(alloc, Vec::new(alloc));
    let notice = notice(alloc, news).expect(rt, "there is memory");
    expect_same(rt, &deliver(&notice, &mut sink), &Ok(()));
    sink
}

/// Who asks, and what INIT or MKNOD says, as a text; or why the message is no request.
fn asked(alloc: Global, message: &[u8]) -> Result<Vec<u8>, NoMemory> {
    let request = match AnyRequest::try_from(message) {
        Ok(request) => request,
        Err(error) => return Ok(format!(in alloc; "{error:?}")?.into_bytes()),
    };
    let header = header(alloc, &request)?;
    let told = told(alloc, &request)?;
    Ok(joined(alloc, &[&header, &told])?)
}

/// What INIT or MKNOD says. Any other says nothing.
fn told(alloc: Global, request: &AnyRequest<'_>) -> Result<Vec<u8>, NoMemory> {
    match request.operation() {
        Ok(Operation::Init(init)) => numbers_of_init(alloc, &init),
        Ok(Operation::MkNod(mknod)) => numbers_of_mknod(alloc, &mknod),
        _ => Ok(Vec::new(alloc)),
    }
}

/// What INIT says, as a text.
fn numbers_of_init(alloc: Global, init: &Init) -> Result<Vec<u8>, NoMemory> {
    let (version, max_readahead) = (init.version(), init.max_readahead());
    let text = format!(in alloc; "version {version} max_readahead {max_readahead}")?;
    Ok(text.into_bytes())
}

/// What MKNOD says, its name at the end.
fn numbers_of_mknod(alloc: Global, mknod: &MkNod<'_>) -> Result<Vec<u8>, NoMemory> {
    let text = format!(in alloc;
        "mode 0o{:o} rdev {} umask 0o{:o} name ",
        mknod.mode(),
        mknod.rdev(),
        mknod.umask()
    )?;
    Ok(joined(alloc, &[text.as_bytes(), mknod.name()])?)
}

/// The header of a request, as a text.
fn header(alloc: Global, request: &AnyRequest<'_>) -> Result<Vec<u8>, NoMemory> {
    let text = format!(in alloc;
        "opcode {} unique 0x{:x} nodeid 0x{:x} uid 0x{:x} gid 0x{:x} pid 0x{:x} ",
        request.opcode(),
        request.unique().0,
        request.nodeid().0,
        request.uid(),
        request.gid(),
        request.pid()
    )?;
    Ok(text.into_bytes())
}

/// What one fetch gives, as bytes.
fn fetched_by(
    alloc: Global,
    arguments: &mut ArgumentIterator<'_>,
    fetch: &Fetch,
) -> Result<Vec<u8>, AllocError> {
    match fetch {
        Fetch::Name => arguments.fetch_str().unwrap_or(b"none").to_vec(alloc),
        Fetch::Number => match arguments.fetch_u64() {
            Some(number) => number.to_le_bytes().to_vec(alloc),
            None => b"none".to_vec(alloc),
        },
        Fetch::Access => match arguments.fetch_access() {
            Some(access) => access.mask.to_le_bytes().to_vec(alloc),
            None => b"none".to_vec(alloc),
        },
        Fetch::All => arguments.fetch_all().to_vec(alloc),
    }
}

/// What is fetched, each with a comma behind it.
fn all_fetched(
    alloc: Global,
    arguments: &mut ArgumentIterator<'_>,
    fetches: &[Fetch],
) -> Result<Vec<u8>, AllocError> {
    let mut told = Vec::new(alloc);
    for fetch in fetches {
        let bytes = fetched_by(alloc, arguments, fetch)?;
        told.extend_from_slice(&bytes)?;
        told.extend_from_slice(b", ")?;
    }
    Ok(told)
}

/// What is fetched from these bytes, each with a comma behind it, and how many are left.
fn fetched(alloc: Global, bytes: &[u8], fetches: &[Fetch]) -> Result<Vec<u8>, NoMemory> {
    let mut arguments = ArgumentIterator::new(bytes);
    let told = all_fetched(alloc, &mut arguments, fetches)?;
    let left = format!(in alloc; "{} left", arguments.len())?;
    Ok(joined(alloc, &[&told, left.as_bytes()])?)
}

/// The options that these texts name.
fn options_of(alloc: Global, texts: &[&str]) -> Result<Vec<MountOption>, NoMemory> {
    let mut options = Vec::new(alloc);
    for text in texts {
        let Ok(()) = options.push(MountOption::from_str(alloc, text)?) else {
            return Err(NoMemory);
        };
    }
    Ok(options)
}

/// The places of the options that conflict, as a text.
fn conflicting(alloc: Global, texts: &[&str]) -> Result<Vec<u8>, NoMemory> {
    let options = options_of(alloc, texts)?;
    let mut config = Config::new(alloc);
    config.mount_options = Items::from_vec(options);
    let conflict = check_option_conflicts(&config);
    drop(config);
    let places = match conflict {
        Ok(()) => String::from_str(alloc, "none")?,
        Err(conflict) => format!(in alloc; "{} and {}", conflict.first, conflict.second)?,
    };
    Ok(places.into_bytes())
}
