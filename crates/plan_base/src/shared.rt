//! What threads may share or hand over.

use crate::build_fault::BuildFault;
use crate::design_fault::DesignFault;
use crate::instance::Instance;
use crate::parts::{Link, Parts};
use crate::path::{Design, Path};
use crate::prices::Prices;

fn is_shared<T: Send + Sync>(_value: &T) {}

fn are_inputs_shared(inst: &Instance, parts: &Parts, link: &Link, prices: &Prices) {
    is_shared(inst);
    is_shared(parts);
    is_shared(link);
    is_shared(prices);
}

fn are_answers_shared(design: &Design, path: &Path) {
    is_shared(design);
    is_shared(path);
}

fn are_faults_shared(build: &BuildFault, design: &DesignFault) {
    is_shared(build);
    is_shared(design);
}
