//! The laws.

ghost use Rattle.sqlite.specs.Effect.{Database, IsDatabase};
ghost use Rattle.sql_adoption.specs.Adoption.{Refuses, IsAdopted};
ghost use Rattle.sql_adoption.specs.declared.faults.OpenFault.{OpenFault};
ghost use Rattle.std.specs.Prelude.{◌≡◌};
ghost use Rattle.office_specification.specs.OfficeRules.{KeepsRules};
ghost use Rattle.request_book.specs.declared.book.Record.{Record};
ghost use Rattle.sql_schema.specs.Inside.{AreOfficeTablesOf};
ghost use Rattle.sql_meaning.specs.Domains.{meaning_by_domain};
ghost use Rattle.sql_changes.specs.Commits.{PutsNumberedRecord};
ghost use Rattle.std.specs.Prelude.{true, ⊤, List, Option, Result, IfSome, IsUtf8};
ghost use Rattle.sqlite.specs.Held.{Held, state};
ghost use Rattle.sql_decoding.specs.declared.faults.Failure.{Failure};
ghost use Rattle.office_specification.specs.declared.values.UnitWrite.{UnitWrite};
ghost use Rattle.sql_commits.specs.Acts.{MakesAct, CommitsAct};
ghost use Rattle.po_text.specs.Texts.{Text};
ghost use Rattle.units.specs.Limits.{is_name};
ghost use Rattle.sql_schema.specs.Whole.{IsCommitOf};
ghost use Rattle.sql_meaning.specs.Beginnings.{MakesDemo, MakesOpening};
ghost use Rattle.sql_changes.specs.OnDomains.{OnDomainsWhere, OnEach};
ghost use Rattle.sql_files.specs.Files.{HoldsOfficeRows, IsOfficeDatabase, IsOfficeFile, IsKeepable, IsKeepableWrite, IsLost, KeepsFile, LeavesFiles, MakesFiles, StandForAll};
ghost use Rattle.sql_keepable.specs.Keepable.{IsKeepableUnit, AreKeepableUnits, AreKeepablePlans, IsKeepableLanguage, AreKeepableEntries};
ghost use Rattle.sql_columns.specs.Written.{IsHeaderEntry};
ghost use Rattle.units.specs.declared.unit.Unit.{Unit};
ghost use Rattle.sql_changes.specs.UnitWrites.{WritesNumberedUnit, WritesOfUnit};
ghost use Rattle.units.specs.declared.unit.Role.{Role};
ghost use Rattle.sqlite_catalog.specs.Listing.{IsSound};
ghost use Rattle.sql_changes.specs.Commits.{MakesRole, MakesPolicy, MakesIn, MakesLanguage, MakesTemplate};
ghost use Rattle.sql_schema.specs.Inside.{Then};
ghost use Rattle.sql_meaning.specs.Beginnings.{PutsDomain};
ghost use Rattle.sql_meaning.specs.RowChanges.{HaveNextIn};
ghost use Rattle.units.specs.declared.unit.Policy.{Policy};
ghost use Rattle.office_specification.specs.declared.values.Language.{Language};
ghost use Rattle.template_update.specs.declared.plans.Plan.{Plan};
ghost use Rattle.po_text.specs.declared.entry.Entry.{Entry};
ghost use Rattle.office_specification.specs.ProjectActs.{LanguagePlan};
ghost use Rattle.sql_schema.specs.Layouts.{Form, by_domain, Layout, schema_of, NamedRows, rows_named};
ghost use Rattle.units.specs.Offices.{IsOffice};
ghost use Rattle.office_specification.specs.UnitAccess.{IsPossibleWrite, with_write_in};
ghost use Rattle.office_specification.specs.OfficeChanges.{changed_by, IsPossibleChange};
ghost use Rattle.office_specification.specs.declared.values.Change.{Change};
ghost use Rattle.sql_figures.specs.Figures.{HasFigures};
ghost use Rattle.sql_commits.specs.Figures.{FollowsAct, FollowsChange};
ghost use Rattle.units.specs.Office.{project_in};
ghost use Rattle.units.specs.declared.unit.Key.{Key};
ghost use Rattle.sql_files.specs.Files.{office_of};

use sqlite::Alter;

/// Whatever schema an opening reads of an office's file, the file is refused for want of memory, a failed disk or a refused
/// statement alone.
pub fn adopted_unless_lost()
    ensures { (db : Database) → IsDatabase db → IsOfficeFile db.trees → (fault : OpenFault) → Refuses db fault → IsLost fault }
{}

/// What is adopted, in whatever form of the tables, is an office's file.
pub fn whatever_is_adopted()
    ensures { (db : Database) → IsDatabase db → IsAdopted db → IsOfficeFile db.trees }
{}

/// A record alone, put where the rules and the figures go on to hold, keeps an office's database one.
pub fn records_keep_files()
    ensures { (old new : Database) (row : Record) → OnEach (PutsNumberedRecord row) old new → AreOfficeTablesOf by_domain new
        → IsKeepable row → KeepsRules (meaning_by_domain (rows_named new)) → HasFigures (rows_named new) → IsOfficeDatabase by_domain old → IsOfficeDatabase by_domain new }
{}

/// Where what the commit of an act on a unit makes of an office's file is one, the connection keeps it, and a stop leaves one.
pub fn commits_keep_files<S: Alter>()
    ensures { (old new : Held S) (r : Result ⊤ Failure) (row : Record) (domain lang : Text) (key : Key) (write : Option UnitWrite) → IsCommitOf by_domain (state S.Store old) (state S.Store new) r (CommitsAct row domain lang key write)
        → MakesFiles (CommitsAct row domain lang key write) (state S.Store old) → KeepsFile (state S.Store old)
        → KeepsFile (state S.Store new) × (LeavesFiles (state S.Store old) → LeavesFiles (state S.Store new)) }
{}

/// The rows of an opening are an office's.
pub fn openings_are_rows()
    ensures { (name : Text) → is_name name ≡ true → IsUtf8 name → (old new : Database) → MakesOpening name old new → HoldsOfficeRows by_domain (rows_named new) }
{}

/// A unit that is written, with its suggestions and the votes on them, leaves rows that stand for values, and so does what an act writes of one.
pub fn units_keep_rows()
    ensures unit { (lang : Text) (unit : Unit) → IsKeepableUnit lang unit → (old new : NamedRows) → WritesNumberedUnit lang unit old new
        → StandForAll old → StandForAll new }
    ensures write { (lang : Text) (key : Key) (write : UnitWrite) → IsKeepableWrite lang key write → (old new : NamedRows) → WritesOfUnit lang key write old new
        → StandForAll old → StandForAll new }
{}

/// The commit of an act on a unit, where the rules and the figures go on to hold, keeps an office's database one.
pub fn acts_keep_files()
    ensures { (old new : Database) (row : Record) (domain lang : Text) (key : Key) (write : Option UnitWrite) → MakesAct row domain lang key write old new → AreOfficeTablesOf by_domain new
        → IsKeepable row → IfSome write (IsKeepableWrite lang key) → KeepsRules (meaning_by_domain (rows_named new))
        → HasFigures (rows_named new) → IsOfficeDatabase by_domain old → IsOfficeDatabase by_domain new }
{}

/// The commit of a role, where the rules and the figures go on to hold, keeps an office's database one.
pub fn roles_keep_files()
    ensures { (old new : Database) (row : Record) (name : Text) (role : Role) → OnEach (MakesRole row name role) old new → AreOfficeTablesOf by_domain new
        → IsKeepable row → is_name name ≡ true → IsUtf8 name → KeepsRules (meaning_by_domain (rows_named new))
        → HasFigures (rows_named new) → IsOfficeDatabase by_domain old → IsOfficeDatabase by_domain new }
{}

/// The commit of a policy, where the rules and the figures go on to hold, keeps an office's database one.
pub fn policies_keep_files()
    ensures { (old new : Database) (row : Record) (policy : Policy) → OnDomainsWhere HaveNextIn (λ domain. MakesPolicy row policy) old new → AreOfficeTablesOf by_domain new
        → IsKeepable row → KeepsRules (meaning_by_domain (rows_named new)) → HasFigures (rows_named new) → IsOfficeDatabase by_domain old → IsOfficeDatabase by_domain new }
{}

/// The commit of a new domain, where the rules and the figures go on to hold, keeps an office's database one.
pub fn domains_keep_files()
    ensures { (old new : Database) (row : Record) (domain : Text) → Then (OnEach (PutsNumberedRecord row)) (PutsDomain domain) old new → AreOfficeTablesOf by_domain new
        → IsKeepable row → is_name domain ≡ true → IsUtf8 domain → KeepsRules (meaning_by_domain (rows_named new))
        → HasFigures (rows_named new) → IsOfficeDatabase by_domain old → IsOfficeDatabase by_domain new }
{}

/// The commit of a language, where the rules and the figures go on to hold, keeps an office's database one.
pub fn languages_keep_files()
    ensures { (old new : Database) (row : Record) (domain lang : Text) (language : Language) (plan : Plan) → MakesIn domain row (MakesLanguage row lang language plan) old new
        → AreOfficeTablesOf by_domain new → IsKeepable row → IsKeepableLanguage lang language.header → IsHeaderEntry language.header
        → AreKeepableUnits lang plan.units → KeepsRules (meaning_by_domain (rows_named new)) → HasFigures (rows_named new) → IsOfficeDatabase by_domain old → IsOfficeDatabase by_domain new }
{}

/// The commit of a template with the units that are fitted to it, where the rules and the figures go on to hold, keeps an office's database one.
pub fn templates_keep_files()
    ensures { (old new : Database) (row : Record) (domain : Text) (entries : List Entry) (plans : List LanguagePlan) → MakesIn domain row (MakesTemplate row entries plans) old new
        → AreOfficeTablesOf by_domain new → IsKeepable row → AreKeepableEntries entries → AreKeepablePlans plans
        → KeepsRules (meaning_by_domain (rows_named new)) → HasFigures (rows_named new) → IsOfficeDatabase by_domain old → IsOfficeDatabase by_domain new }
{}

/// An opening of trees that list the tables of a layout reads that schema, however the texts are spelled.
pub fn listed_schemas_are_read()
    ensures { (form : Form) (layout : Layout form) (db : Database) → IsDatabase db → IsSound (schema_of layout) db.trees → db.schema ≡ schema_of layout }
{}

/// The rows of the demo are an office's.
pub fn demos_are_rows()
    ensures { (old new : Database) → MakesDemo old new → HoldsOfficeRows by_domain (rows_named new) }
{}

/// The sums and the tallies of an office's database are what counting its rows gives behind the commit of an act on a unit too, which writes of the unit
/// that is there; and behind that of a change that the office allows.
pub fn figures_follow_acts()
    ensures unit { (old new : Database) (domain lang : Text) (key : Key) (write : Option UnitWrite) → IsOfficeDatabase by_domain old → IsOffice (office_of new)
        → office_of new ≡ with_write_in (office_of old) domain lang key write → IsPossibleWrite (project_in (office_of old) domain) lang key write
        → FollowsAct domain lang key write old new → HasFigures (rows_named new) }
    ensures office { (old new : Database) (change : Option Change) → IsOfficeDatabase by_domain old → IsPossibleChange (office_of old) change
        → office_of new ≡ changed_by (office_of old) change → FollowsChange change old new → HasFigures (rows_named new) }
{}
