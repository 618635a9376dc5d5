//! What holds of all deliveries: what an act on a unit leaves alone, what of an office an act reads, which requests may change
//! places, what an export depends on, and how a run goes on. The promises of retries and of commuting stand on these.

ghost use Rattle.std.specs.Prelude.{◌≡◌, List, true, false, sum_by, nat_lt, not, ◌&&◌, if◌then◌else◌};
ghost use Rattle.std.specs.List.{list_any};
ghost use Rattle.std.specs.FinMap as maps;
ghost use Rattle.po_text.specs.Texts.{Text};
ghost use Rattle.units.specs.Office.{Office, project_in};
ghost use Rattle.units.specs.Offices.{IsOffice};
ghost use Rattle.units.specs.declared.unit.Key.{Key};
ghost use Rattle.units.specs.declared.unit.Policy.{Policy};
ghost use Rattle.units.specs.declared.unit.UnitAct.{UnitAct};
ghost use Rattle.request_book.specs.declared.act.Act.TheVariants.{OnUnit, AddDomain};
ghost use Rattle.request_book.specs.declared.act.Request.{Request};
ghost use Rattle.request_book.specs.Book.{OfficeWithBook};
ghost use Rattle.request_book.specs.Clash.{scope_of, of_domain, clash, Alike};
ghost use Rattle.office_specification.specs.Approvals.{approvals_in};
ghost use Rattle.office_specification.specs.OfficeActs.{passes, turned};
ghost use Rattle.office_specification.specs.Step.{step};
ghost use Rattle.office_specification.specs.Deliveries.{first_of, left_by};
ghost use Rattle.office_specification.specs.ExportText.{export_text};
ghost use Rattle.office_specification.specs.Laws.{DiffersAt, DiffersIn, IsStepAlike, GoInEitherOrder, Swaps, IsJoined};
ghost use Rattle.office_specification.specs.Parts.{part_of, AreAlikeIn, ShareCounts};

/// An act on a unit leaves all else as it was: which domains there are, each domain's template and headers, team, policy and each
/// other unit.
pub fn unit_act_leaves_the_rest()
    ensures { (office : Office) (request : Request) (domain lang : Text) (key : Key) (act : UnitAct) →
        request.act ≡ OnUnit domain lang key act → DiffersAt (domain, (lang, key)) office (step office request).0 }
{}

/// A template or language request leaves all other domains as they were, team and policy too.
pub fn domain_act_leaves_other_domains()
    ensures { (office : Office) (request : Request) (domain : Text) →
        scope_of request.act ≡ of_domain domain → DiffersIn domain office (step office request).0 }
{}

/// A domain request leaves all other domains as they were, team and policy too; where the domain is there already it changes nothing.
pub fn domain_request_leaves_domains()
    ensures others { (office : Office) (request : Request) (domain : Text) → request.act ≡ AddDomain domain → DiffersIn domain office (step office request).0 }
    ensures there { (office : Office) (request : Request) (domain : Text) → request.act ≡ AddDomain domain
        → maps.contains_key office.domains domain ≡ true → (step office request).0 ≡ office }
{}

/// An act reads no more of an office than its part, and a policy beside that how many units it turns and whether one would pass the last
/// revision: of two offices that are alike in that it gets one reply, and it leaves them alike in the part.
pub fn acts_read_their_part()
    ensures { (x y : Office) (request : Request) → AreAlikeIn (part_of request.act) x y → ShareCounts request.act x y →
        IsStepAlike (part_of request.act) (step x request) (step y request) }
{}

/// What a policy reads of the units of an office that keeps its rules are two counts: it turns those that are approved, unless there are
/// reviews, and one would pass the last revision where one of these is at it.
pub fn policies_read_approvals()
    ensures turned { (office : Office) → IsOffice office → (policy : Policy) →
        sum_by (turned policy) (maps.values office.domains) ≡ (if policy.reviews then 0 else (approvals_in office).approved) }
    ensures passes { (office : Office) → IsOffice office → (policy : Policy) →
        list_any (passes policy) (maps.values office.domains) ≡ (not policy.reviews && nat_lt 0 (approvals_in office).at_last_revision) }
{}

/// Two requests that don't clash leave one office in either order, and each gets one reply: acts on two units, and a template or
/// language request beside what is about another domain.
pub fn either_order()
    ensures { (office : Office) (x y : Request) → clash x y ≡ false → GoInEitherOrder office x y }
{}

/// Lists are alike exactly where swaps of neighbours that don't clash lead from one to the other.
pub fn alike_by_swaps()
    ensures swaps { (xs ys : List Request) → Alike xs ys → Swaps ys xs }
    ensures alike { (xs ys : List Request) → Swaps ys xs → Alike xs ys }
{}

/// An export reads the office and not the book, and two lists of deliveries whose first arrivals are alike export equal bytes.
pub fn equal_exports()
    ensures book { (x y : OfficeWithBook) → x.office ≡ y.office → (domain lang : Text) →
        export_text (project_in x.office domain) lang ≡ export_text (project_in y.office domain) lang }
    ensures alike { (start : OfficeWithBook) (xs ys : List Request) → Alike (first_of start.book xs) (first_of start.book ys) →
        (domain lang : Text) → export_text (project_in (left_by start xs).office domain) lang ≡ export_text (project_in (left_by start ys).office domain) lang }
{}

/// A run goes on from what its first part left.
pub fn run_goes_on()
    ensures { (start : OfficeWithBook) (xs ys : List Request) → IsJoined start xs ys }
{}
