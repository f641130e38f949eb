//! Arguments that are written out, and what clap makes of them.
use pj_words::*;
use std::alloc::{AllocError, Global};
use std::test::Fail;

/// The name of the program, and then these.
pub(crate) fn arguments(alloc: Global, given: &[&str]) -> Result<Vec<String>, AllocError> {
    let mut arguments = Vec::new(alloc);
    arguments.push(String::from_str(alloc, "projplay")?)?;
    for argument in given {
        arguments.push(String::from_str(alloc, argument)?)?;
    }
    Ok(arguments)
}

#[test]
fn one_flag_is_taken(rt: HostRuntime) -> Result<(), Fail> {
    let alloc = rt.alloc();
    let plain = arguments(alloc, &[])?;
    assert!(rt; wants_history(alloc, plain.as_slice()) == Ok(false));
    let history = arguments(alloc, &["--history"])?;
    assert!(rt; wants_history(alloc, history.as_slice()) == Ok(true));
    let nope = arguments(alloc, &["--nope"])?;
    assert!(rt; wants_history(alloc, nope.as_slice()) == Err(WordsFault::Usage));
    assert!(rt; asked_about(alloc, nope.as_slice()) == Ok(None));
    Ok(())
}

#[test]
fn the_program_tells_of_itself(rt: HostRuntime) -> Result<(), Fail> {
    let alloc = rt.alloc();
    let help = arguments(alloc, &["--history", "--help"])?;
    assert!(rt; wants_history(alloc, help.as_slice()) == Err(WordsFault::Usage));
    assert!(rt; asked_about(alloc, help.as_slice()) == Ok(Some(About::Help)));
    let version = arguments(alloc, &["--version"])?;
    assert!(rt; asked_about(alloc, version.as_slice()) == Ok(Some(About::Version)));
    let told = about_text(alloc, About::Help).expect(&rt, "the help");
    assert!(rt; told.as_str().contains("Usage: projplay [OPTIONS]\n"));
    let named = about_text(alloc, About::Version).expect(&rt, "the version");
    assert!(rt; named.as_str() == "projplay 0.1.0\n");
    Ok(())
}

#[test]
fn what_is_not_taken_is_told_with_the_usage(rt: HostRuntime) -> Result<(), Fail> {
    let alloc = rt.alloc();
    for given in ["--history", "--help", "--version"] {
        let taken = arguments(alloc, &[given])?;
        assert!(rt; usage_text(alloc, taken.as_slice()) == Ok(None), "{given}");
    }
    let nope = arguments(alloc, &["--nope"])?;
    let told = usage_text(alloc, nope.as_slice())
        .expect(&rt, "memory")
        .expect(&rt, "a refusal");
    assert!(rt;
        told.as_str()
            .starts_with("error: unexpected argument '--nope' found\n")
    );
    assert!(rt; told.as_str().contains("\nUsage: projplay [OPTIONS]\n"));
    Ok(())
}
