//! Lists of words, with what `clap`'s documentation says of them, and what is then a path: the budget, the flags
//! that are given and CONFIG, or `usage`. They were written by hand, since no other `clap` was there to run.
use std::alloc::{AllocError, Global};
use std::process::Abort;
use std::test::Fail;
use zw_args::ArgsFault;
use zw_args::words::settings;

const LISTS: [(&[&str], &str); 71] = [
    // CONFIG alone.
    (&["zw.toml"], "100000 zw.toml"),
    (&["a/b.toml"], "100000 a/b.toml"),
    (&["é b"], "100000 é b"),
    (&["-"], "100000 -"),
    (&["help"], "100000 help"),
    (&[], "usage"),
    (&[""], "usage"),
    (&["c", "d"], "usage"),
    (&["c", ""], "usage"),
    // A CONFIG that is no path.
    (&["/c"], "usage"),
    (&["a/../b"], "usage"),
    (&["."], "usage"),
    (&["a//b"], "usage"),
    (&["c/"], "usage"),
    (&["a\nb"], "usage"),
    (&["a\u{7f}"], "usage"),
    // The budget.
    (&["--budget=5", "c"], "5 c"),
    (&["--budget", "5", "c"], "5 c"),
    (&["c", "--budget", "5"], "5 c"),
    (&["--budget", "5", "5"], "5 5"),
    (&["--budget", "+5", "c"], "5 c"),
    (&["--budget=+5", "c"], "5 c"),
    (&["--budget", "005", "c"], "5 c"),
    (&["--budget", "1", "c"], "1 c"),
    (&["--budget", "1000000000", "c"], "1000000000 c"),
    (&["--budget", "0", "c"], "usage"),
    (&["--budget=+0", "c"], "usage"),
    (&["--budget", "1000000001", "c"], "usage"),
    (&["--budget", "18446744073709551617", "c"], "usage"),
    (&["--budget=", "c"], "usage"),
    (&["--budget", "", "c"], "usage"),
    (&["--budget=-5", "c"], "usage"),
    (&["--budget", "-5", "c"], "usage"),
    (&["--budget", "++5", "c"], "usage"),
    (&["--budget", "5x", "c"], "usage"),
    (&["--budget", " 5", "c"], "usage"),
    (&["--budget", "1_000", "c"], "usage"),
    (&["--budget", "٣", "c"], "usage"),
    (&["--budget"], "usage"),
    (&["--budget", "5"], "usage"),
    (&["--budget", "--log", "c"], "usage"),
    (&["--budget", "5", "--budget", "5", "c"], "usage"),
    (&["--bud", "5", "c"], "usage"),
    (&["-budget", "5", "c"], "usage"),
    // Flags.
    (&["--log", "c"], "100000 log c"),
    (&["c", "--log"], "100000 log c"),
    (&["--steps", "c"], "100000 steps c"),
    (&["--eager", "c"], "100000 eager c"),
    (
        &["--eager", "c", "--steps", "--budget=9", "--log"],
        "9 log steps eager c",
    ),
    (&["--log"], "usage"),
    (&["--log", "--log", "c"], "usage"),
    (&["--log=x", "c"], "usage"),
    (&["--log=true", "c"], "usage"),
    (&["--log=", "c"], "usage"),
    (&["-l", "c"], "usage"),
    (&["--Log", "c"], "usage"),
    (&["--no-log", "c"], "usage"),
    (&["--logs", "c"], "usage"),
    // Words after `--`.
    (&["--", "c"], "100000 c"),
    (&["--log", "--", "c"], "100000 log c"),
    (&["--", "--log"], "100000 --log"),
    (&["--", "-h"], "100000 -h"),
    (&["c", "--"], "100000 c"),
    (&["c", "--", "d"], "usage"),
    (&["--"], "usage"),
    (&["--budget", "--", "5", "c"], "usage"),
    // Help and version are asked of no one.
    (&["-h"], "usage"),
    (&["--help"], "usage"),
    (&["c", "--help"], "usage"),
    (&["--version"], "usage"),
    (&["-V", "c"], "usage"),
];

// What a list of words says.
fn shown(alloc: Global, list: &[&str]) -> Result<String, AllocError> {
    let mut words = Vec::new(alloc);
    for word in list {
        words.push(String::from_str(alloc, word)?)?;
    }
    match settings(alloc, &words) {
        Ok(settings) => {
            let log = if settings.log { " log" } else { "" };
            let steps = if settings.steps { " steps" } else { "" };
            let eager = if settings.eager { " eager" } else { "" };
            let config = settings.config.text(alloc)?;
            format!(in alloc; "{}{log}{steps}{eager} {config}", settings.budget)
        }
        Err(ArgsFault::Refused(_)) => String::from_str(alloc, "usage"),
        Err(ArgsFault::Memory) => Err(AllocError),
    }
}

fn all_agree(rt: &impl Abort, alloc: Global, lists: &[(&[&str], &str)]) -> Result<(), AllocError> {
    for (list, said) in lists {
        let read = shown(alloc, list)?;
        assert!(rt; read.as_str() == *said, "{list:?} says {read:?}");
    }
    Ok(())
}

#[test]
fn lists_of_words(rt: HostRuntime) -> Result<(), Fail> {
    all_agree(&rt, rt.alloc(), &LISTS)?;
    Ok(())
}
