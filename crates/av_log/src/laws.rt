//! What holds of every line, and of every list of lines.
ghost use Rattle.av_log.specs.Order.{EachIsCounted, OrderIsKept};
ghost use Rattle.av_log.specs.Words.{BytesForgeNothing};

/// Bytes that others chose, a label or a name, stand in a line of words as visible ASCII without a quote. So they end neither their
/// quotes nor the line, whatever they are.
pub fn bytes_forge_nothing()
    ensures { BytesForgeNothing }
{}

/// Whatever lines come, and however many bytes go out at a time: the lines that were kept go out whole and in their order, and each other
/// one is counted.
pub fn lines_keep_their_order()
    ensures order { OrderIsKept }
    ensures counted { EachIsCounted }
{}
