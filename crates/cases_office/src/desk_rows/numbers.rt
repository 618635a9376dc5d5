//! The numbers of faults.
use office::{ExportFault, QueryFault};
use std::alloc::Global;
use tables::Lost;

/// The number of the fault of this name.
pub(crate) fn number_of(alloc: Global, name: &str) -> Option<String> {
    let number = match name {
        "NoLanguage" => ExportFault::NoLanguage.number(),
        "Device" => ExportFault::Device.number(),
        "Memory" => ExportFault::Memory.number(),
        "Disk" => ExportFault::Disk.number(),
        "Long" => ExportFault::Long.number(),
        "Refused" => ExportFault::Refused.number(),
        "AskedNoLanguage" => QueryFault::NoLanguage.number(),
        "AskedNoUnit" => QueryFault::NoUnit.number(),
        "AskedMemory" => QueryFault::Memory.number(),
        "AskedDisk" => QueryFault::Disk.number(),
        "AskedRefused" => QueryFault::Refused.number(),
        "LostMemory" => Lost::Memory.number(),
        "LostDisk" => Lost::Disk.number(),
        "LostRefused" => Lost::Refused.number(),
        _ => return None,
    };
    format!(in alloc; "{number}").ok()
}
