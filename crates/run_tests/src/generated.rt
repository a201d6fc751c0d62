//! Rows of generated workloads. The summaries are taken from another program.

use crate::running::{Row, is_answered};
use soy_top::Status;

/// No file is there, and none is wanted.
const WORKLOADS: &[Row] = &[
    (
        "gen-seven",
        "gen 7",
        &[],
        Status::Done,
        "templates 201\nmessages 200\nitems 4000\nbytes 638685\n\
         sha256 5af8c6346a49bf592b0ed63a89634b078b516187af8dbedd63968274f1eeb1ad\n",
        "",
    ),
    (
        "gen of ten digits at the limit",
        "gen 4294967295",
        &[],
        Status::Done,
        "templates 201\nmessages 200\nitems 4000\nbytes 638815\n\
         sha256 6c5acb770dfe0cb954d12808feb3190c7b9a821979fdce93ce35f4e469fd00a1\n",
        "",
    ),
];

#[test]
fn rows_of_workloads(rt: HostRuntime) {
    for row in WORKLOADS {
        assert!(rt; is_answered(rt.alloc(), row), "row {}", row.0);
    }
}
