// Reports on sheets.
use crate::sheets::{CIRCLE, DIAMOND, LOST_EDGE};
use sheet_report::report::report;
use std::test::Fail;

#[test]
fn a_graph_by_its_numbers(rt: HostRuntime) -> Result<(), Fail> {
    let text = report(rt.alloc(), &DIAMOND)?;
    assert_eq!(rt;
        text.as_str(),
        "nodes 4\nedges 4\nshown 2\nhidden 1\ndisabled 1\ngeneration 3\nInstantiation 0\nENode 4\nGivenEquality 0\nTransEquality 0\nProof 0\nCdcl 0\nsubgraphs 1\nsingletons 0\n"
    );
    Ok(())
}

#[test]
fn a_closed_walk_instead_of_subgraphs(rt: HostRuntime) -> Result<(), Fail> {
    let text = report(rt.alloc(), &CIRCLE)?;
    assert_eq!(rt;
        text.as_str(),
        "nodes 2\nedges 2\nshown 0\nhidden 2\ndisabled 0\ngeneration 0\nInstantiation 0\nENode 2\nGivenEquality 0\nTransEquality 0\nProof 0\nCdcl 0\nrefused graph 7 0\n"
    );
    Ok(())
}

#[test]
fn a_refusal_in_one_line(rt: HostRuntime) -> Result<(), Fail> {
    let text = report(rt.alloc(), &LOST_EDGE)?;
    assert_eq!(rt; text.as_str(), "refused sheet 17 15 graph 3 5\n");
    let text = report(rt.alloc(), &DIAMOND[..4])?;
    assert_eq!(rt; text.as_str(), "refused sheet 12 4\n");
    let text = report(rt.alloc(), &DIAMOND[..48])?;
    assert_eq!(rt; text.as_str(), "refused sheet 14 1\n");
    Ok(())
}
