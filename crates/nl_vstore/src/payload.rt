//! A payload block.
use nl_layout::Tag;
use nl_types::Page;

/// A payload block: what its log's summary says of it, and its page.
pub type Payload = (Tag, Page);
