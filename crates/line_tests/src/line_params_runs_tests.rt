// Runs of pairs and ordered steps that were found by hand.
use crate::rows::{HEAD, are_rows, end, row};
use dw_base::Run;
use line_machine::Row;
use line_params::least_pair;
use line_sums::{CountedStep, Step, count_steps};
use std::test::Fail;

// No step; one that takes no more than its opcode; one that takes a byte more under each pair, or two; and two, of which a
// special opcode makes the first under the pair 2 and 1 alone: there the bytes of both are needed, elsewhere those of the first.
#[test]
fn known_runs_are_found(rt: HostRuntime) -> Result<(), Fail> {
    let table: [(&[Row], &[Run]); 4] = [
        (
            &[],
            &[Run {
                len: 65_280,
                number: 0,
            }],
        ),
        (
            &[end(0)],
            &[Run {
                len: 65_280,
                number: 0,
            }],
        ),
        (
            &[end(4)],
            &[Run {
                len: 65_280,
                number: 1,
            }],
        ),
        (
            &[row(200, 3, 0), end(442)],
            &[
                Run {
                    len: 130,
                    number: 1,
                },
                Run { len: 1, number: 2 },
                Run {
                    len: 65_149,
                    number: 1,
                },
            ],
        ),
    ];
    for (rows, want) in table {
        assert!(rt; are_rows(rows));
        let least = least_pair(rt.alloc(), &HEAD, rows).map_err(|_| "no memory")?;
        assert_eq!(rt; least.runs.as_slice(), want);
    }
    Ok(())
}

// The first step comes once, the next two come twice.
#[test]
fn steps_are_in_order(rt: HostRuntime) -> Result<(), Fail> {
    let rows = [
        row(1, 3, 0),
        row(5, 4, 0),
        row(5, 4, 1),
        row(9, 5, 1),
        row(9, 5, 0),
        end(9),
    ];
    assert!(rt; are_rows(&rows));
    let counted = count_steps(rt.alloc(), &rows).map_err(|_| "no memory")?;
    let want = [
        CountedStep {
            step: Step::Row(1, 4),
            count: 2,
        },
        CountedStep {
            step: Step::Row(0, 0),
            count: 2,
        },
        CountedStep {
            step: Step::Row(2, 1),
            count: 1,
        },
        CountedStep {
            step: Step::End(0),
            count: 1,
        },
    ];
    assert_eq!(rt; counted.as_slice(), want.as_slice());
    Ok(())
}
