//! What threads may share or hand over.

use crate::fault::CheckFault;

fn is_shared<T: Send + Sync>(_value: &T) {}

fn is_fault_shared(fault: &CheckFault) {
    is_shared(fault);
}
