//! The heads of scenarios of running peers.

/// Two honest peers, and an honest peer 0 with a hostile peer.
pub(crate) const HONEST: &str =
    "ivshm 1\npeers 2\ntable 4096\ncommon 0\nout 16384\nmtu 256\nirq msix 2\npeer 0 honest\npeer 1 honest\nbegin\n";

pub(crate) const HOSTILE: &str =
    "ivshm 1\npeers 2\ntable 4096\ncommon 0\nout 16384\nmtu 256\nirq msix 2\npeer 0 honest\npeer 1 hostile\nbegin\n";

/// Two honest peers of the layout with event indexes, and of the layout with a byte ring.
pub(crate) const WITH_EVENTS: &str =
    "ivshm 2\npeers 2\ntable 4096\ncommon 0\nout 16384\nmtu 256\nirq msix 2\npeer 0 honest\npeer 1 honest\nbegin\n";

pub(crate) const IN_BYTES: &str =
    "ivshm 3\npeers 2\ntable 4096\ncommon 0\nout 16384\nmtu 256\nirq msix 2\npeer 0 honest\npeer 1 honest\nbegin\n";
