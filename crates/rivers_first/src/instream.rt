//! Where a basin's instream rights stand among its rights.
ghost use Rattle.rivers_first.specs.Rounds.{SpansInstream};

use water_model::types::{Basin, RightKind};

/// All instream rights are among those from `first` to before `last`. There they stand together in a file's order, so
/// that no record of another right is read.
#[derive(Clone, Copy)]
pub struct InstreamSpan {
    pub first: usize,
    pub last: usize,
}

/// The least span of a basin's instream rights.
pub fn instream_span(basin: &Basin) -> InstreamSpan
    ensures { SpansInstream basin.now result }
{
    let mut span = InstreamSpan { first: 0, last: 0 };
    for right in 0..basin.rights.len() {
        if let RightKind::Instream { .. } = basin.rights[right].kind {
            let first = if span.last == 0 { right } else { span.first };
            span = InstreamSpan {
                first,
                last: right + 1,
            };
        }
    }
    span
}
