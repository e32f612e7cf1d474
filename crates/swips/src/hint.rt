// The word behind a page in a frame row: the frame of the node that names the page, or one of these.
use page_model::limits::FRAME_BIT;

/// The hint of a frame row in which no hot page stands: the page there is cooling, or the frame is empty.
pub const MARK: u64 = FRAME_BIT + 1;

/// A hint that names no frame.
pub const NO_HINT: u64 = FRAME_BIT;
