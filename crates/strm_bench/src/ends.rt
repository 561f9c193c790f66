//! Host ends of a writer, of a reader, or of one of each.

use std::alloc::{AllocError, Global};
use strm_buffers::hosts::Hosts;
use strm_buffers::readers::HostReader;
use strm_buffers::writers::HostWriter;

/// This writer alone.
pub(crate) fn of_writer(alloc: Global, writer: Box<dyn HostWriter>) -> Result<Hosts, AllocError> {
    let mut writers = Vec::new(alloc);
    writers.push(writer)?;
    Ok(Hosts {
        writers,
        readers: Vec::new(alloc),
    })
}

/// This reader alone.
pub(crate) fn of_reader(alloc: Global, reader: Box<dyn HostReader>) -> Result<Hosts, AllocError> {
    let mut readers = Vec::new(alloc);
    readers.push(reader)?;
    Ok(Hosts {
        writers: Vec::new(alloc),
        readers,
    })
}

/// This writer and this reader.
pub(crate) fn of_both(
    alloc: Global,
    writer: Box<dyn HostWriter>,
    reader: Box<dyn HostReader>,
) -> Result<Hosts, AllocError> {
    let mut writers = Vec::new(alloc);
    writers.push(writer)?;
    let mut readers = Vec::new(alloc);
    readers.push(reader)?;
    Ok(Hosts { writers, readers })
}
