//! Sizes that the rules set: a file with too many nodes, and a trial of the greatest size.
use basin_cli::Status;
use std::alloc::AllocError;
use std::test::Fail;
use test_support::{expect, files, text_of};

/// Adds 2,001 nodes.
fn add_nodes(file: &mut String) -> Result<(), AllocError> {
    for node in 0..2001u64 {
        write!(file, "[[node]]\nname = \"n{node}\"\noutlet = true\n")?;
    }
    Ok(())
}

#[test]
fn names_too_many_nodes(rt: HostRuntime) -> Result<(), Fail> {
    let head = "format = 1\nfirst_month = \"1900-01\"\nmonths = 1\n";
    let mut basin = String::from_str(rt.alloc(), head)?;
    add_nodes(&mut basin)?;
    let want = (Status::BasinRefused, "", "basin: TooMany node 2001\n");
    expect(
        rt.alloc(),
        &["run", "BASIN"],
        &files(basin.as_str(), ""),
        want,
    )
}

/// A trial of the greatest size: as many rivers, canals, rights and zones as the rules of the generator make. Run again
/// it has the same summary.
#[test]
fn tries_the_greatest_size_twice(rt: HostRuntime) -> Result<(), Fail> {
    let words = ["trial", "7", "2000"];
    let set = files("", "");
    let text = text_of(rt.alloc(), &words, &set)?;
    assert!(&rt;
        text.as_str()
            .starts_with("trial 7 2000\nsize 2000 2499 200 60\n")
    );
    expect(rt.alloc(), &words, &set, (Status::Done, text.as_str(), ""))
}
