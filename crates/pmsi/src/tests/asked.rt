//! Calls by their words, and what they ask for.
use super::words_of;
use pmsi_model::Keep;
use std::alloc::Global;
use tool_words::{Asked, asked_of};

fn asks(alloc: Global, texts: &[&str], expected: Option<Asked>) -> bool {
    let Ok(words) = words_of(alloc, texts) else {
        return false;
    };
    asked_of(alloc, &words) == Ok(expected)
}

fn run(trace: bool, touches: bool, job: &str) -> Option<Asked> {
    let keep = Keep { trace, touches };
    Some(Asked::Run { keep, job })
}

fn sim(workers: u32, trace: bool, touches: bool, job: &str) -> Option<Asked> {
    let keep = Keep { trace, touches };
    Some(Asked::Sim { workers, keep, job })
}

fn made(seed: u32, cores: u32, slots: u32, run: bool) -> Option<Asked<'static>> {
    Some(Asked::Gen {
        seed,
        cores,
        slots,
        run,
    })
}

#[test]
fn canonical_words(rt: HostRuntime) {
    let alloc = rt.alloc();
    for (words, expected) in [
        (["run", "a"].as_slice(), run(false, false, "a")),
        (&["run", "--trace", "yes", "a"], run(true, false, "a")),
        (&["run", "--touches", "yes", "a"], run(false, true, "a")),
        (
            &["run", "--trace", "no", "--touches", "yes", "a"],
            run(false, true, "a"),
        ),
        (
            &["run", "--trace", "yes", "--touches", "no", "help"],
            run(true, false, "help"),
        ),
        (&["sim", "a"], sim(2, false, false, "a")),
        (&["sim", "--workers", "1", "a"], sim(1, false, false, "a")),
        (
            &[
                "sim",
                "--workers",
                "16",
                "--trace",
                "yes",
                "--touches",
                "no",
                "a",
            ],
            sim(16, true, false, "a"),
        ),
        (&["trace", "a"], Some(Asked::Trace("a"))),
        (&["gen", "7"], made(7, 4, 20_000, false)),
        (
            &[
                "gen",
                "--cores",
                "16",
                "--slots",
                "0",
                "--run",
                "yes",
                "4294967295",
            ],
            made(4_294_967_295, 16, 0, true),
        ),
        (
            &["debug", "a", "b"],
            Some(Asked::Debug {
                job: "a",
                script: "b",
            }),
        ),
        (&["asm", "a.s"], Some(Asked::Asm("a.s"))),
        (&["dis", "a.img"], Some(Asked::Dis("a.img"))),
        (&["image", "a.img"], Some(Asked::Image("a.img"))),
    ] {
        assert!(rt; asks(alloc, words, expected));
    }
}

#[test]
fn other_words_with_a_meaning(rt: HostRuntime) {
    let alloc = rt.alloc();
    for (words, expected) in [
        (
            ["run", "--touches", "yes", "--trace", "no", "a"].as_slice(),
            run(false, true, "a"),
        ),
        (&["run", "a", "--trace=yes"], run(true, false, "a")),
        (
            &["run", "--trace", "yes", "--", "--touches"],
            run(true, false, "--touches"),
        ),
        (
            &["sim", "--touches=yes", "--workers=3", "a"],
            sim(3, false, true, "a"),
        ),
        (
            &["sim", "a", "--workers", "0000000004"],
            sim(4, false, false, "a"),
        ),
        (&["run", "--", "-h"], run(false, false, "-h")),
        (&["run", ""], run(false, false, "")),
        (
            &["gen", "0000000007", "--slots=1000000"],
            made(7, 4, 1_000_000, false),
        ),
        (&["asm", "--", "--"], Some(Asked::Asm("--"))),
        (&["dis", "-"], Some(Asked::Dis("-"))),
    ] {
        assert!(rt; asks(alloc, words, expected));
    }
}

#[test]
fn words_without_a_meaning(rt: HostRuntime) {
    let alloc = rt.alloc();
    for words in [
        [].as_slice(),
        &[""],
        &["fly", "a"],
        &["Run", "a"],
        &["--help"],
        &["run"],
        &["run", "a", "b"],
        &["run", "--help"],
        &["run", "-h", "a"],
        &["run", "--trace", "yes", "--trace", "yes", "a"],
        &["run", "--speed", "yes", "a"],
        &["run", "a", "--trace"],
        &["run", "--trace", "--touches", "yes", "a"],
        &["run", "--trace", "Yes", "a"],
        &["run", "--trace", "", "a"],
        &["run", "--touches=", "a"],
        &["run", "--workers", "2", "a"],
        &["sim"],
        &["sim", "--workers", "0", "a"],
        &["sim", "--workers", "17", "a"],
        &["sim", "--workers", "00000000002", "a"],
        &["sim", "--workers", "4294967298", "a"],
        &["sim", "--workers", "9999999999", "a"],
        &["sim", "--workers", "+2", "a"],
        &["sim", "--workers", " 2", "a"],
        &["sim", "--workers", "0x2", "a"],
        &["sim", "--workers", "two", "a"],
        &["sim", "--workers=", "a"],
        &["sim", "--workers", "2", "--workers", "2", "a"],
        &["trace", "--touches", "yes", "a"],
        &["gen"],
        &["gen", "4294967296"],
        &["gen", "00000000007"],
        &["gen", "seed"],
        &["gen", "--cores", "0", "7"],
        &["gen", "--cores", "17", "7"],
        &["gen", "--slots", "1000001", "7"],
        &["gen", "--run", "on", "7"],
        &["debug", "a"],
        &["debug", "a", "b", "c"],
        &["asm"],
        &["asm", "--trace", "yes", "a.s"],
        &["dis", "a.img", "b.img"],
        &["image", "--help"],
    ] {
        assert!(rt; asks(alloc, words, None));
    }
}
