//! Where the call that is tried begins and ends is told on standard error. No memory is taken for it.

pub(crate) fn begins(rt: &HostRuntime, is_marked: bool) {
    if is_marked {
        let _ = eprintln!(rt; "the call begins");
    }
}

pub(crate) fn ends(rt: &HostRuntime, is_marked: bool) {
    if is_marked {
        let _ = eprintln!(rt; "the call ends");
    }
}
