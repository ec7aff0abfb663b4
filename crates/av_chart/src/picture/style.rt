//! The style of a picture: what its classes look like, in a light and in a dark scheme.

/// The rules of the style, a line feed behind each line.
pub const STYLE: &[u8] =
    b".bg{fill:#fff}.stripe{fill:#f3f5f9}text{font:11px ui-monospace,'DejaVu Sans Mono',Menlo,Consolas,monospace;fill:#1d2430}\n\
.h{font-weight:700;font-size:13px}.t{font-weight:700;font-size:15px}.n{fill:#5b6575}.l{stroke:#aab3c0;fill:none}.r{fill:#b3261e}\n\
.d{stroke:#1f5fbf;fill:none;stroke-width:1.4}.u{stroke:#7a3fb0;fill:none;stroke-width:1.4}.o{stroke:#5b6575;fill:none;stroke-width:1.2}\n\
.hd{fill:#1f5fbf}.hu{fill:#7a3fb0}.ho{fill:#5b6575}.td{fill:#1f5fbf}.tu{fill:#7a3fb0}.halo{stroke:#fff;stroke-width:3px;paint-order:stroke;stroke-linejoin:round}\n\
.x{stroke:#b3261e;stroke-width:1.8;fill:none}.again{stroke-dasharray:5 3}.spent{stroke-dasharray:1.5 3}.tw{fill:#8a5a00}\n\
.granted{fill:#12793a}.denied{fill:#b3261e}.unscanned{fill:#8a5a00}.sg{stroke:#12793a;stroke-width:1.6;fill:none}.sd{stroke:#b3261e;stroke-width:1.6;fill:none}.su{stroke:#8a5a00;stroke-width:1.6;fill:none}\n\
.pill{fill:#e4e9f1;stroke:#aab3c0}.bo{fill:#f1c453}.bq{fill:#7fb0ef}.bj{fill:#c39be6}.bw{fill:#8fc9a3}\n\
@media(prefers-color-scheme:dark){.bg{fill:#14171c}.stripe{fill:#1b2028}text{fill:#e6e9ef}.n{fill:#9aa4b4}.l{stroke:#465063}.r{fill:#ff8a80}\n\
.d{stroke:#7fb2ff}.u{stroke:#cfa2f5}.o{stroke:#9aa4b4}.hd{fill:#7fb2ff}.hu{fill:#cfa2f5}.ho{fill:#9aa4b4}.td{fill:#7fb2ff}.tu{fill:#cfa2f5}.halo{stroke:#14171c}\n\
.x{stroke:#ff8a80}.tw{fill:#f2c14e}.granted{fill:#5fd38a}.denied{fill:#ff8a80}.unscanned{fill:#f2c14e}.sg{stroke:#5fd38a}.sd{stroke:#ff8a80}.su{stroke:#f2c14e}\n\
.pill{fill:#2a313d;stroke:#465063}.bo{fill:#a37c1c}.bq{fill:#2f5f9f}.bj{fill:#6d4691}.bw{fill:#3a7350}}\n";
