//! What the bytes of a basin file, a series and a result are found to be, without files and a command.
use crate::basins::{GAUGED, JUNIOR_DRY, JUNIOR_SHORT, ORDINARY, ORDINARY_SERIES, ORDINARY_TEXT};
use basin_cli::{Found, check_result};
use std::test::Fail;

/// The series of a basin without gauges.
const HEADER: &str = "month,node,amount\n";

/// Texts that are accepted and refuted, and a basin file and a series that are refused.
#[test]
fn finds_what_bytes_are(rt: HostRuntime) -> Result<(), Fail> {
    let table = [
        (JUNIOR_DRY.0, HEADER, JUNIOR_DRY.1, Found::Accepted),
        (ORDINARY, ORDINARY_SERIES, ORDINARY_TEXT, Found::Accepted),
        // The text of a wetter month.
        (JUNIOR_DRY.0, HEADER, JUNIOR_SHORT.1, Found::Refuted),
        (JUNIOR_DRY.0, HEADER, "", Found::Refuted),
        ("format = 3\n", HEADER, JUNIOR_DRY.1, Found::BasinRefused),
        (GAUGED, HEADER, JUNIOR_DRY.1, Found::SeriesRefused),
    ];
    for (basin, series, text, want) in table {
        let found = check_result(
            rt.alloc(),
            basin.as_bytes(),
            series.as_bytes(),
            text.as_bytes(),
        );
        assert_eq!(&rt; found, want);
    }
    Ok(())
}
