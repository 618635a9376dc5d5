//! The plural rule that was read last, kept with the columns that it was read of: to read a rule tests it on a thousand numbers.
ghost use Rattle.std.specs.Prelude.{◌≡◌, ◌&&◌, true, IfOk, IfErr, IfSome};
ghost use Rattle.sql_decoding.specs.ShownContexts.{header_of_column, rule_of_column, shown_rule};
ghost use Rattle.sql_decoding.specs.RowTests.{is_header, is_rule_of, is_language};
ghost use Rattle.tables.specs.declared.faults.Lost.TheVariants.{Memory};

use crate::columns::is_text;
use crate::faults::Failure;
use plural_expr::PluralForms;
use po_text::Text;
use sqlite::Row;

/// A plural rule, and the two columns of a language's row that it was read of.
#[derive(Drop)]
pub struct KeptRule {
    header: Text,
    plural: Text,
    rule: PluralForms,
    ghost is_read: { rule ≡ rule_of_column header },
    ghost stands: { (is_header header && is_rule_of (header_of_column header) plural) ≡ true },
}

/// Whether a rule was read of a language's row, or of another with the same columns.
fn is_of(kept: &KeptRule, row: &Row) -> bool
    ensures rule { result ≡ true → kept.now.rule ≡ shown_rule row.now }
    ensures stands { result ≡ true → is_language row.now ≡ true }
{
    is_text(row, 0, kept.header.as_str()) && is_text(row, 1, kept.plural.as_str())
}

/// The rule of a language's row, where the one that is kept was read of the same columns.
pub(crate) fn same_rule(kept: &Option<KeptRule>, row: &Row) -> Result<Option<PluralForms>, Failure>
    ensures shown { IfOk result (λ found. IfSome found (λ rule. rule ≡ shown_rule row.now)) }
    ensures stands { IfOk result (λ found. IfSome found (λ _. is_language row.now ≡ true)) }
    ensures memory { IfErr result (λ failure. failure.lost ≡ Memory) }
{
    match kept {
        Some(kept) => if is_of(kept, row) {
            Ok(Some(kept.rule.duplicate()?))
        } else {
            Ok(None)
        },
        None => Ok(None),
    }
}

/// The rule of a language's row, to be kept. None, where no memory is left for it.
pub(crate) fn rule_to_keep(row: &Row, rule: &PluralForms) -> Option<KeptRule>
    requires shown { rule.now ≡ shown_rule row.now }
    requires stands { is_language row.now ≡ true }
{
    let header: String = row.get(0).ok()?;
    let plural: String = row.get(1).ok()?;
    let rule = rule.duplicate().ok()?;
    Some(KeptRule {
        header: Text::from_string(header),
        plural: Text::from_string(plural),
        rule,
    })
}
