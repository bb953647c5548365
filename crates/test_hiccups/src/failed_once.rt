//! Each call of both disks fails once.
use harness_disks::{CallKind, Image};
use harness_faults::{Hiccup, HiccupEnd, hiccups};
use harness_stops::{KINDS, Script};
use std::test::Fail;

/// The asks in which a sync failed are lost with all behind them. Those in which another call failed are lost alone, or so,
/// too, as the database sees it; but none is for a length alone.
fn is_lost_by_kind(hiccup: &Hiccup) -> bool {
    match hiccup.outcome {
        HiccupEnd::Unopened | HiccupEnd::Unseen | HiccupEnd::Unclosed => true,
        HiccupEnd::OneLost(_) => hiccup.failed.kind != CallKind::Sync,
        HiccupEnd::AllLost(_) => hiccup.failed.kind != CallKind::Length,
    }
}

fn has(hiccups: &[Hiccup], wanted: HiccupEnd) -> bool {
    hiccups.iter().any(|hiccup| hiccup.outcome == wanted)
}

fn has_kind(hiccups: &[Hiccup], kind: CallKind) -> bool {
    hiccups.iter().any(|hiccup| hiccup.failed.kind == kind)
}

#[test]
fn each_call_fails_once(rt: HostRuntime) -> Result<(), Fail> {
    let script = Script::new(rt.alloc())?;
    let hiccups = hiccups(rt.alloc(), &script, &Image::empty(rt.alloc()))?;
    println!(rt; "{} calls that fail once", hiccups.len())?;
    for kind in KINDS {
        assert!(rt; has_kind(hiccups.as_slice(), kind), "no {kind:?}");
    }
    for ask in 0..script.asks().len() {
        assert!(rt;
            has(hiccups.as_slice(), HiccupEnd::AllLost(ask)),
            "no failed sync in ask {ask}"
        );
        assert!(rt;
            has(hiccups.as_slice(), HiccupEnd::OneLost(ask)),
            "no other failed call in ask {ask}"
        );
    }
    for hiccup in hiccups.as_slice() {
        assert!(rt; is_lost_by_kind(hiccup), "{hiccup:?}");
    }
    Ok(())
}
