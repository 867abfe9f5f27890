//! Byte streams that record how the calls on them went.
//!
//! The standard traits for reading and writing don't say in a contract how a call failed. A `ByteSink` and a `ByteSource` have a `Stage` for this. So
//! a contract can say that an error has a cause, that no call is repeated after an error, and that an output is flushed once, after its last byte.
//! `OutputBuffer` is the buffer of an output, and `Printer` a sink with such a buffer that remembers a failed write.
#![tactic(auto)]

pub mod output_buffer;
pub mod printer;
pub mod reader_source;
pub mod sink;
pub mod source;
pub mod stage;
pub mod writer_sink;
pub mod writing;

pub use output_buffer::OutputBuffer;
pub use printer::Printer;
pub use reader_source::{LentReader, ReaderSource};
pub use sink::{ByteSink, WriteFault};
pub use source::{ByteSource, SourceFault};
pub use stage::Stage;
pub use writer_sink::WriterSink;
pub use writing::write_whole;
