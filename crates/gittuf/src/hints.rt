//! What a person at a terminal is told beside the answer. What reads standard error otherwise gets the lines of the
//! formats alone.

use crate::needs::Needs;
use edge_io::{FileDisk, StdSink, write_all};
use std::io::IsTerminal;

fn hint(rt: &HostRuntime, line: &[u8]) {
    if rt.stderr().is_terminal() {
        let mut faults_out = StdSink::new(rt.stderr());
        let _ = write_all(&mut faults_out, line);
    }
}

/// Tells that others may read the key file.
pub(crate) fn hint_at_shared_key(rt: &HostRuntime, disk: &FileDisk) {
    if disk.is_shared() {
        hint(
            rt,
            b"gittuf: others may read or write the key file; chmod 600 keeps it yours\n",
        );
    }
}

/// Tells that making a key takes a while.
pub(crate) fn hint_at_slow_key(rt: &HostRuntime, needs: &Needs) {
    if needs.slow {
        hint(rt, b"gittuf: making this key may take half a minute\n");
    }
}

/// Tells that a desk is about to be opened, and how it is stopped.
pub(crate) fn hint_at_desk(rt: &HostRuntime) {
    hint(
        rt,
        b"gittuf: opening the desk on this machine; Ctrl-C stops it\n",
    );
}
