/// Why a row is none (React 19.0, ReactFlightClient, reads most of these as something; the faults are this
/// project's own).
#[derive(Clone, Copy, Debug, PartialEq, Eq)]
pub enum FeedKind {
    /// The id is not one to eight lower-case hexadecimal digits below 2^31 and a colon, or it has no digit and
    /// the row is no hint. It stands at the first byte with which no such row can go on.
    BadId,
    /// No row has this tag. It stands at the tag.
    BadTag,
    /// Only developers' builds have such a row. It stands at the tag.
    DevRow,
    /// The length of a text row is not one to eight lower-case hexadecimal digits and a comma. It stands at the
    /// first byte with which no length can go on.
    BadLength,
    /// The payload has more than 67,108,864 bytes. It stands at the comma of a length, or at the first byte too
    /// many before a newline.
    RowTooLong,
    /// The payload of a row that is no hint is not UTF-8. It stands at the row's last byte.
    BadText,
    /// The stream ends within a row.
    Cut,
}

/// Why bytes were not taken.
#[derive(Clone, Copy, Debug, PartialEq, Eq)]
pub enum FeedFault {
    /// A row is none. Rows are numbered from 1.
    Row { number: u64, kind: FeedKind },
    Memory,
}
