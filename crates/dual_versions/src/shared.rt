//! What threads may share or hand over.

use crate::published::Published;
use crate::reader::BoardReader;
use crate::writer::BoardWriter;
use std::sync::Wait;

fn is_sent<T: Send>(_value: &T) {}

fn is_shared<T: Send + Sync>(_value: &T) {}

fn are_shared(published: &Published) {
    is_shared(published);
}

fn is_reader_sent(reader: &BoardReader) {
    is_sent(reader);
}

fn is_writer_sent<R: Wait + Sync>(writer: &BoardWriter<&R>) {
    is_sent(writer);
}
