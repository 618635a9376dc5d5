//! A language's text, entry by entry.

ghost use Rattle.std.specs.Prelude.{◌≡◌, ◌≢◌, ◌⊎◌, Err, IfOk, IfErr, OnOk};
ghost use Rattle.office_specification.specs.AnyOrder.{ExportsTheSame};
ghost use Rattle.office_specification.specs.ExportSpelled.{TookCatalogue};
ghost use Rattle.office_specification.specs.ExportText.{export_text};
ghost use Rattle.units.specs.Office.{project_in};
ghost use Rattle.tables.specs.KeptByCalls.{IsKept};
ghost use Rattle.tables.specs.Stops.{Nothing};
ghost use Rattle.byte_streams.specs.Streams.{RoseOrStands};
ghost use Rattle.office.specs.declared.faults.ExportFault.TheVariants.{NoLanguage, Device, Memory, Disk};
ghost use Rattle.office.specs.Exports.{WasExported, WasCut};

use crate::checksum::Checksum;
use crate::export_sink::{ExportSink, text_writer};
use crate::faults::ExportFault;
use byte_streams::ByteSink;
use sha2::Digest;
use std::alloc::Global;
use tables::Tables;
use units::{Lang, Name};

/// What was exported: how many bytes, and their SHA-256 digest.
#[derive(Clone, Copy, Debug, PartialEq, Eq)]
pub struct ExportReceipt {
    pub bytes: u64,
    pub sha256: [u8; 32],
}

/// The fault that is told, by the writer's count of failures before the export and after it: it failed where that rose, or stands at
/// its end. Tables that claim another failure of it run on, and are told as want of memory.
fn fault_to_tell(fault: ExportFault, before: u64, after: u64) -> ExportFault
    ensures device { result ≡ Device → RoseOrStands before after }
    ensures failed { RoseOrStands before after → result ≡ fault }
    ensures others { fault ≢ Device → result ≡ fault }
    ensures only { (result ≡ fault) ⊎ (result ≡ Memory) }
{
    match fault {
        ExportFault::Device if after <= before && after < u64::MAX => ExportFault::Memory,
        _ => fault,
    }
}

/// Writes the text of a domain's language. The text of one entry is in memory at a time.
pub(crate) fn export<T: Tables, W: ByteSink>(
    alloc: Global,
    tables: &mut T,
    domain: &Name,
    lang: &Lang,
    w: &mut W,
) -> Result<ExportReceipt, ExportFault>
    ensures text { T.is_honest tables.new → IfOk result
        (WasExported (export_text (project_in (T.means tables.old).office domain.now) lang.now) (W.taken w.old) (W.taken w.new)) }
    ensures err { T.is_honest tables.new → IfErr result
        (WasCut (export_text (project_in (T.means tables.old).office domain.now) lang.now) (W.taken w.old) (W.taken w.new) (W.failed w.old) (W.failed w.new)) }
    ensures same { T.is_honest tables.new → T.is_whole tables.new → T.means tables.new ≡ T.means tables.old }
    // The text spells the language's catalogue and no other.
    ensures spelled { T.is_honest tables.new → OnOk result
        (TookCatalogue (project_in (T.means tables.old).office domain.now) lang.now (W.taken w.old) (W.taken w.new)) }
    // Offices that alike lists lead to export equal bytes.
    ensures commuting { T.is_honest tables.new → OnOk result
        (ExportsTheSame (T.means tables.old).office domain.now lang.now (W.taken w.old) (W.taken w.new)) }
    // No write failed.
    ensures count { T.is_honest tables.new → OnOk result (W.failed w.new ≡ W.failed w.old) }
    // The same of any tables; and only a writer that failed is told as one.
    ensures unfailed { OnOk result (W.failed w.new ≡ W.failed w.old) }
    ensures device { IfErr result (λ e. e ≡ Device → RoseOrStands (W.failed w.old) (W.failed w.new)) }
    // That the language isn't there is told by tables that aren't shut.
    ensures open_still { T.is_honest tables.new → result ≡ Err NoLanguage → T.is_whole tables.new }
    ensures kept { IsKept T.is_honest T.is_whole T.means T.may_leave T.faults T.is_stopped tables.old tables.new result Disk Nothing }
{
    let before = w.failures();
    let mut text = text_writer(alloc);
    let mut sink = ExportSink {
        w: &mut *w,
        text: &mut text,
        begun: false,
        checksum: Checksum::new(),
    };
    let sent = tables.each_entry(domain, lang, &mut sink);
    let ExportSink {
        begun,
        checksum,
        ..
    } = sink;
    let after = w.failures();
    if let Err(fault) = sent {
        return Err(fault_to_tell(ExportFault::from(fault), before, after));
    }
    if after != before {
        return Err(fault_to_tell(ExportFault::Device, before, after));
    }
    // A language that is there has a header.
    if !begun {
        return Err(ExportFault::NoLanguage);
    }
    let Checksum { bytes, digest } = checksum;
    Ok(ExportReceipt {
        bytes,
        sha256: digest.finalize(),
    })
}
