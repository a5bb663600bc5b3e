//! The first lines of a workload, drawn by hand.

use app_api::Call;
use script::{Line, workload};

#[test]
fn the_first_lines_of_a_workload(rt: HostRuntime) {
    let script = workload(rt.alloc(), 7, 6).expect(&rt, "workload");
    let lines = script.as_slice();
    assert!(rt; lines.len() == 2_000);
    // keep turn 2 3
    assert!(rt;
        matches!(
            &lines[0],
            Line::Turns {
                app: 2,
                client: 0,
                instance: 2,
                count: 3
            }
        )
    );
    // cipher invoke 2 2 vi:3:51 vo
    assert!(rt;
        matches!(
            &lines[1],
            Line::Call {
                app: 4,
                call: Call::Invoke {
                    label: 2,
                    command: 2,
                    ..
                },
                ..
            }
        )
    );
    // keep open 1
    assert!(rt;
        matches!(
            &lines[2],
            Line::Call {
                app: 2,
                post: false,
                call: Call::Open { label: 1, .. },
                ..
            }
        )
    );
}
