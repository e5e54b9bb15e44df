// The words that start the program: `serve THREADS ACL OWNER PAGE`, `gen SEED COUNT`, or `load SEED COUNT THREADS`.

ghost use Rattle.std.specs.Prelude.{◌≡◌, ◌<◌, map, IfSome};
ghost use Rattle.fuse_program.specs.Form.{acl_of, decimal_of, form_of, gen_form_of, load_form_of, number_within};

use fuse_config::SessionACL;

/// What the program is told to serve.
#[derive(Clone, Copy, Debug, PartialEq, Eq)]
pub struct ServeForm {
    /// How many threads are asked for, at most 1024.
    pub threads: usize,
    /// Whose requests are served.
    pub acl: SessionACL,
    /// The user who owns the session.
    pub owner: u32,
    /// The bytes in a page of memory, at least 1.
    pub page: u32,
}

/// What the program is told to generate.
#[derive(Clone, Copy, Debug, PartialEq, Eq)]
pub struct GenForm {
    /// Where the requests begin, below 2^31.
    pub seed: u32,
    /// How many requests there are, at most 65535.
    pub count: u32,
}

/// What the program is told to generate and to serve from memory.
#[derive(Clone, Copy, Debug, PartialEq, Eq)]
pub struct LoadForm {
    /// Where the requests begin, below 2^31.
    pub seed: u32,
    /// How many requests there are, at most 65535.
    pub count: u32,
    /// How many threads are asked for, at most 1024.
    pub threads: usize,
}

/// The form of `serve THREADS ACL OWNER PAGE`, from the words after the program's own name: THREADS at most 1024, ACL
/// `all`, `root` or `owner`, OWNER a u32, PAGE a u32 of at least 1. A number is one to ten digits. None where the
/// words are not these five.
pub fn serve_form(words: &[&[u8]]) -> Option<ServeForm>
    ensures form { result ≡ form_of (map (λ w. w.now) words.now) }
    ensures page { IfSome result (λ f. 0 < f.page) }
{
    let [command, threads, acl, owner, page] = words else {
        return None;
    };
    if *command != b"serve".as_slice() {
        return None;
    }
    Some(ServeForm {
        threads: number(threads, 0, 1024)? as usize,
        acl: acl_named(acl)?,
        owner: number(owner, 0, u32::MAX)?,
        page: number(page, 1, u32::MAX)?,
    })
}

/// The form of `gen SEED COUNT`: SEED below 2^31, COUNT at most 65535. None where the words are not these three.
pub fn gen_form(words: &[&[u8]]) -> Option<GenForm>
    ensures { result ≡ gen_form_of (map (λ w. w.now) words.now) }
{
    let [command, seed, count] = words else {
        return None;
    };
    if *command != b"gen".as_slice() {
        return None;
    }
    Some(GenForm {
        seed: number(seed, 0, 0x7fff_ffff)?,
        count: number(count, 0, 65535)?,
    })
}

/// The form of `load SEED COUNT THREADS`: SEED below 2^31, COUNT at most 65535, THREADS at most 1024. None where the
/// words are not these four.
pub fn load_form(words: &[&[u8]]) -> Option<LoadForm>
    ensures { result ≡ load_form_of (map (λ w. w.now) words.now) }
{
    let [command, seed, count, threads] = words else {
        return None;
    };
    if *command != b"load".as_slice() {
        return None;
    }
    Some(LoadForm {
        seed: number(seed, 0, 0x7fff_ffff)?,
        count: number(count, 0, 65535)?,
        threads: number(threads, 0, 1024)? as usize,
    })
}

/// Whose requests the word names.
fn acl_named(word: &[u8]) -> Option<SessionACL>
    ensures { result ≡ acl_of word.now }
{
    if word == b"all".as_slice() {
        Some(SessionACL::All)
    } else if word == b"root".as_slice() {
        Some(SessionACL::RootAndOwner)
    } else if word == b"owner".as_slice() {
        Some(SessionACL::Owner)
    } else {
        None
    }
}

/// The number that the word writes, where it is within these limits.
fn number(word: &[u8], least: u32, most: u32) -> Option<u32>
    ensures { result ≡ number_within least most word.now }
{
    let value = decimal(word)?;
    if value < u64::from(least) || value > u64::from(most) {
        return None;
    }
    Some(value as u32)
}

/// The number that one to ten digits write.
fn decimal(word: &[u8]) -> Option<u64>
    ensures { result ≡ decimal_of word.now }
{
    if word.is_empty() || word.len() > 10 {
        return None;
    }
    let mut value: u64 = 0;
    for byte in word {
        if !byte.is_ascii_digit() {
            return None;
        }
        value = 10 * value + u64::from(*byte - b'0');
    }
    Some(value)
}
