// The lengths and limits of document 01.

// The bytes of a record.
pub const RECORD_LENGTH: usize = 40;

// The most records of a table, read or written.
pub const MOST_RECORDS: usize = 1600;

// The bytes of the longest table, and of the program's table and fault buffers.
pub const TABLE_LENGTH: usize = RECORD_LENGTH * MOST_RECORDS;

// The bytes of a fault.
pub const FAULT_LENGTH: usize = 20;
