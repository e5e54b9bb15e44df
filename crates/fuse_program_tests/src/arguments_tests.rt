// What the words of a form say. Words that are none are tried in `checks/statuses`.
use crate::asserts::expect_same;
use crate::runs::Words;
use fuse_config::SessionACL;
use fuse_program::{GenForm, LoadForm, ServeForm, gen_form, load_form, serve_form};

/// Words, and the threads, the owner and the page that they name.
const SERVED: &[(Words, usize, SessionACL, u32, u32)] = &[
    (
        &[b"serve", b"1", b"all", b"0", b"4096"],
        1,
        SessionACL::All,
        0,
        4096,
    ),
    (
        &[b"serve", b"1024", b"owner", b"4294967295", b"4294967295"],
        1024,
        SessionACL::Owner,
        u32::MAX,
        u32::MAX,
    ),
    (
        &[b"serve", b"0000000001", b"root", b"7", b"1"],
        1,
        SessionACL::RootAndOwner,
        7,
        1,
    ),
];

/// Words, and the seed, the count, and, of `load`, the threads.
const GENERATED: &[(Words, u32, u32)] = &[
    (&[b"gen", b"0", b"0"], 0, 0),
    (&[b"gen", b"2147483647", b"65535"], 2_147_483_647, 65535),
    (&[b"gen", b"0000000012", b"0000000034"], 12, 34),
];

const LOADED: &[(Words, u32, u32, usize)] = &[
    (&[b"load", b"0", b"0", b"0"], 0, 0, 0),
    (
        &[b"load", b"2147483647", b"65535", b"1024"],
        2_147_483_647,
        65535,
        1024,
    ),
];

#[test]
fn words_say_what_to_serve_and_to_generate(rt: HostRuntime) {
    for &(words, threads, acl, owner, page) in SERVED {
        let form = ServeForm {
            threads,
            acl,
            owner,
            page,
        };
        expect_same(&rt, &serve_form(words), &Some(form));
    }
    for &(words, seed, count) in GENERATED {
        expect_same(&rt, &gen_form(words), &Some(GenForm { seed, count }));
    }
    for &(words, seed, count, threads) in LOADED {
        let form = LoadForm {
            seed,
            count,
            threads,
        };
        expect_same(&rt, &load_form(words), &Some(form));
    }
}
