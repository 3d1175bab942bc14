//! A month that ends by the tree, and one that ends by pushes: the same deliveries and the same reach, and other
//! flows.
//!
//! Forty springs of 1 each run into a fork. From there a canal, which the file lists first, and 65 rivers, one after
//! the other, lead to the field of a user at the mouth: one too many to be a way round the canal. By the tree each
//! spring is a push by itself, and water goes over the first link that leads on: the canal. So a month of one right
//! needs 40 pushes, and has a budget of 30: the water of the last ten springs runs down the rivers to the mouth, and
//! searches turn it to the user. With a second right, which wants nothing, there are 60 pushes.
use basin_cli::Status;
use std::alloc::{AllocError, Global};
use std::test::Fail;
use test_support::{expect, files};

/// How many springs there are.
const SPRINGS: u32 = 40;

/// How many nodes there are on the way of the rivers, between the fork and the field.
const BENDS: u32 = 64;

/// The nodes below the springs, and the links between them.
const VALLEY: &str = r#"[[node]]
name = "fork"
[[node]]
name = "field"
[[node]]
name = "mouth"
outlet = true
[[link]]
name = "canal"
from = "fork"
to = "field"
per_day = 2
[[link]]
name = "end"
from = "field"
to = "mouth"
"#;

/// The first right, which wants more than there is.
const USER: &str =
    "[[diversion]]\nname = \"user\"\nnode = \"field\"\ndate = \"1900-01-01\"\nwant = 50\n";

/// The second right.
const LATE: &str =
    "[[diversion]]\nname = \"late\"\nnode = \"field\"\ndate = \"1950-01-01\"\nwant = 0\n";

/// Adds the rivers from the fork to the field, with the nodes between them.
fn add_rivers(text: &mut String) -> Result<(), AllocError> {
    for bend in 0..BENDS {
        write!(text, "[[node]]\nname = \"b{bend}\"\n")?;
    }
    text.push_str("[[link]]\nname = \"first\"\nfrom = \"fork\"\nto = \"b0\"\n")?;
    for bend in 1..BENDS {
        let above = bend - 1;
        write!(
            text,
            "[[link]]\nname = \"w{bend}\"\nfrom = \"b{above}\"\nto = \"b{bend}\"\n"
        )?;
    }
    text.push_str("[[link]]\nname = \"last\"\nfrom = \"b63\"\nto = \"field\"\n")
}

/// Adds the basin, with the first right and what follows it.
fn add_basin(late: &str, text: &mut String) -> Result<(), AllocError> {
    text.push_str("format = 1\nfirst_month = \"1900-01\"\nmonths = 1\n")?;
    for spring in 0..SPRINGS {
        write!(text, "[[node]]\nname = \"s{spring}\"\ninflow = 1\n")?;
    }
    text.push_str(VALLEY)?;
    add_rivers(text)?;
    for spring in 0..SPRINGS {
        write!(
            text,
            "[[link]]\nname = \"r{spring}\"\nfrom = \"s{spring}\"\nto = \"fork\"\n"
        )?;
    }
    text.push_str(USER)?;
    text.push_str(late)
}

/// Adds the lines of flows, with this much in the canal and on the rivers.
fn add_flows(canal: u64, river: u64, text: &mut String) -> Result<(), AllocError> {
    write!(text, "flow canal {canal}\nflow end 0\nflow first {river}\n")?;
    for bend in 1..BENDS {
        write!(text, "flow w{bend} {river}\n")?;
    }
    write!(text, "flow last {river}\n")?;
    for spring in 0..SPRINGS {
        write!(text, "flow r{spring} 1\n")?;
    }
    Ok(())
}

/// Adds the lines of the user's set. Every node is in it: no water can be had from anywhere.
fn add_members(text: &mut String) -> Result<(), AllocError> {
    for spring in 0..SPRINGS {
        write!(text, "in s{spring}\n")?;
    }
    text.push_str("in fork\nin field\nin mouth\n")?;
    for bend in 0..BENDS {
        write!(text, "in b{bend}\n")?;
    }
    Ok(())
}

/// Adds the result, with these flows of the canal and the rivers, and with the deliveries of juniors. The user gets all
/// 40.
fn add_result(flows: (u64, u64), juniors: &str, text: &mut String) -> Result<(), AllocError> {
    text.push_str("river-result 1\nrun 1900-01 1\nmonth 1900-01\n")?;
    add_flows(flows.0, flows.1, text)?;
    write!(
        text,
        "deliver user 40 50\n{juniors}out mouth 0\ncall user\n"
    )?;
    add_members(text)?;
    text.push_str("end\ndone 1\n")
}

/// Runs the basin with these rights, and fails where the result is another than that of these flows and deliveries.
fn expect_result(alloc: Global, late: &str, flows: (u64, u64), juniors: &str) -> Result<(), Fail> {
    let mut basin = String::new(alloc);
    add_basin(late, &mut basin)?;
    let mut want = String::new(alloc);
    add_result(flows, juniors, &mut want)?;
    let want = (Status::Done, want.as_str(), "");
    expect(alloc, &["run", "BASIN"], &files(basin.as_str(), ""), want)
}

#[test]
fn solves_by_pushes_where_the_budget_gives_out(rt: HostRuntime) -> Result<(), Fail> {
    expect_result(rt.alloc(), "", (30, 10), "")
}

#[test]
fn solves_by_the_tree_within_the_budget(rt: HostRuntime) -> Result<(), Fail> {
    expect_result(rt.alloc(), LATE, (40, 0), "deliver late 0 0\n")
}
