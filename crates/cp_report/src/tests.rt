use super::*;
use std::alloc::Global;
use std::test::*;

// Texts of reports, whole.
const REPORTS: [&str; 10] = [
    "cplan-report 1\nyes\nend\n",
    "cplan-report 1\nno\nend\n",
    "cplan-report 1\nyes\nnode 0: 0s 2t\nnode 1: 0t 1s\nnode 2: 1t 2s\nend\n",
    "cplan-report 1\nyes\nnode 0: 0s\nnode 1: 0t\nnode 2:\ncluster 1:\nend\n",
    "cplan-report 1\nyes\nnode 0:\nnode 1:\nnode 2:\ncluster 1:\nend\n",
    "cplan-report 1\nyes\nnode 0: 0s\nnode 1: 0t\ncluster 1:\ncluster 2:\ncluster 3:\nend\n",
    "cplan-report 1\nyes\nnode 0: 0s 0t 1s 2s\nnode 1: 1t 2t\ncluster 1: 1 2\ncluster 2: 1 2\nend\n",
    "cplan-report 1\nyes\nnode 0: 0s 3t\nnode 1: 0t 2s\nnode 2: 1s 2t\nnode 3: 1t 3s\ncluster 1: 0 1 2 3\nend\n",
    "cplan-report 1\nyes\nnode 0: 4294967295t 4294967295s\ncluster 1: 4294967295 10\nend\n",
    "cplan-report 1\nyes\ncluster 1: 0 4 2\nend\n",
];

// Texts at fault, each with its kind and its line.
const FAULTS: [(&str, u8, usize); 26] = [
    ("cplan-report 9\nyes\nend\ngraph [ ]", 1, 1),
    ("cplan-report 1\nmaybe\n", 2, 2),
    ("cplan-report 1\nyes\nnode 1:\nend\n", 3, 3),
    ("cplan-report 1\nyes\nnode 0: 01s\nend\n", 3, 3),
    ("cplan-report 1\nyes\n", 4, 3),
    ("cplan-report 1\nno\nend", 4, 3),
    ("", 1, 1),
    ("cplan-report 1", 1, 1),
    ("cplan-report 1\n", 2, 2),
    ("cplan-report 1\nyes", 2, 2),
    ("cplan-report 1\nyes\nnode 0: 0s\nend", 4, 4),
    ("cplan-report 1\nyes\nnode 0: 4294967296s\nend\n", 3, 3),
    ("cplan-report 1\nyes\ncluster 1: 4294967296\nend\n", 3, 3),
    ("cplan-report 1\r\nyes\r\nend\r\n", 1, 1),
    ("cplan-report 1\nyes\r\nend\r\n", 2, 2),
    ("cplan-report 1\nyes\nend\r\n", 3, 3),
    ("cplan-report 1\nyes\ncluster 1:\nnode 0:\nend\n", 3, 4),
    ("cplan-report 1\nyes\ncluster 0:\nend\n", 3, 3),
    (
        "cplan-report 1\nyes\nnode 0:\nnode 1:\nnode 3:\nend\n",
        3,
        5,
    ),
    ("cplan-report 1\nyes\nnode 0: \nend\n", 3, 3),
    ("cplan-report 1\nyes\nnode 0:  0s\nend\n", 3, 3),
    ("cplan-report 1\nyes\nnode 0:0s\nend\n", 3, 3),
    ("cplan-report 1\nyes\nnode 0: 0\nend\n", 3, 3),
    ("cplan-report 1\nyes\nnode 0: +0s\nend\n", 3, 3),
    ("cplan-report 1\nyes\ncluster 1: 0s\nend\n", 3, 3),
    ("cplan-report 1\nno\nnode 0:\nend\n", 3, 3),
];

// Reads a text, and writes what was read.
fn again(alloc: Global, text: &str) -> Result<(Vec<u8>, usize), ReportFault> {
    let (report, len) = read_report(alloc, text.as_bytes())?;
    Ok((write_report(alloc, &report)?, len))
}

#[test]
fn reports_are_read_and_faults_told(rt: HostRuntime) -> Result<(), Fail> {
    for text in REPORTS {
        let (written, len) = again(rt.alloc(), text).ok().ok_or("a report is read")?;
        assert_eq!(rt; len, text.len(), "at {text}");
        assert_eq!(rt; written.as_slice(), text.as_bytes(), "at {text}");
    }
    for (text, kind, line) in FAULTS {
        let fault = read_report(rt.alloc(), text.as_bytes()).err();
        assert_eq!(rt; fault, Some(ReportFault::Bad { kind, line }), "at {text}");
    }
    one_reading();
    Ok(())
}

#[test]
fn what_follows_is_left(rt: HostRuntime) -> Result<(), Fail> {
    let text = "cplan-report 1\nyes\nnode 0: 0s 2t\nend\ngraph [ ]";
    let (report, len) = read_report(rt.alloc(), text.as_bytes())
        .ok()
        .ok_or("a report stands in front")?;
    assert_eq!(rt; len, 37);
    match report {
        Report::Yes(layout) => {
            assert_eq!(rt; layout.clusters.len(), 0);
            assert_eq!(rt; layout.nodes.len(), 1);
            for darts in layout.nodes.items() {
                assert_eq!(rt; darts.items(), [0, 5].as_slice());
            }
        }
        Report::No => assert!(rt; false),
    }
    Ok(())
}
