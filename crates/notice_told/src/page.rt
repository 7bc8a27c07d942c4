// The page of packages with their texts, and what is missing.

ghost use Rattle.license_notice.specs.Notices.{bands_of};
ghost use Rattle.license_notice.specs.Once.{AreOnce};
ghost use Rattle.notice_forms.specs.Pages.{page_in};
ghost use Rattle.notice_forms.specs.Told.{named};
ghost use Rattle.notice_told.specs.Lacks.{lacks_in, seen_lack};
ghost use Rattle.notice_told.specs.Page as spec;
ghost use Rattle.notice_told.specs.Page.{
  AreGroups,
  AreTotals,
  CountsOnce,
  IsNotice,
  IsNoticeFault,
  IsPageFault,
  IsTextsOf,
  line_of_package,
  noted,
  texts_in,
  told_of,
};
ghost use Rattle.std.specs.Prelude.{◌≡◌, IfErr, IfOk, map};
ghost use Rattle.license_notice.specs.Notices.{line_of};

use crate::lacks::{GeneralText, Lack, all_lacks, missing_of, release_of};
use crate::owns::all_owns;
use crate::packages::Package;
use crate::texts::{PageText, general_texts, own_texts, put_views, releases_in, used_of};
use license_notice::{Group, Package as Noted, Release, each_once, notice_of, packages_in};
use notice_forms::{Format, LicenseText, Page, PageError, put_page};
use notice_texts::shared_texts;
use std::alloc::{AllocError, Global};

/// What stands at the top of the page.
pub const TITLE: &str = "Licences";

/// How a page is written.
#[derive(Clone, Copy, Debug)]
pub struct Look {
    pub format: Format,
    /// Whether it is said of general texts that they are general ones, and of which packages, as it is where packages have
    /// texts of their own.
    pub marks_general: bool,
}

/// Why no page is written.
#[derive(Debug, Drop)]
pub enum NoticeFault {
    /// Memory was refused.
    Memory,
    /// The text of this name is no UTF-8, which pages of HTML and of JSON are.
    NotUtf8(String),
}

impl From<AllocError> for NoticeFault {
    ghost use Rattle.notice_told.specs.declared.page.NoticeFault.TheVariants as variant;

    ghost from_gives = { λ _ e. e ≡ variant.Memory };

    fn from(_error: AllocError) -> Self {
        NoticeFault::Memory
    }
}

/// How many there are.
#[derive(Clone, Copy, PartialEq, Eq, Debug)]
pub struct Totals {
    /// Packages; those of one name and version are one.
    pub packages: usize,
    /// Texts on the page that packages have of their own.
    pub own: usize,
    /// General texts on the page.
    pub general: usize,
    /// Packages of which a text is missing.
    pub without: usize,
}

/// A page, and what isn't on it.
#[derive(Debug, Drop)]
pub struct NoticeText<'t> {
    pub bytes: Vec<u8>,
    /// What packages lack and no general text is.
    pub missing: Vec<Lack<'t>>,
    pub totals: Totals,
}

// The texts of a page.
#[derive(Drop)]
struct PageTexts<'t> {
    own: Vec<PageText<'t>>,
    general: Vec<PageText<'t>>,
}

/// The page of these packages, each below the requirements of its choice, with the texts that they have of their own, and
/// the general ones that some of them lack. Of their files exactly those are there that are owed: texts that are the same
/// but for white space stand once, with all packages that have them. The texts of packages come first, in the order of their
/// first files, and then the general ones, in their order. Pages of HTML and of JSON besides have the packages, each once and
/// in their order, with their requirements.
///
/// # Errors
///
/// Memory was refused, or the form is HTML or JSON and a text of the page is no UTF-8.
pub fn notice_text<'t>(
    alloc: Global,
    look: Look,
    packages: &[Package<'_, 't>],
    general: &[GeneralText<'t>],
) -> Result<NoticeText<'t>, NoticeFault>
    ensures ok { IfOk result (IsNotice look packages.now general.now) }
    ensures err { IfErr result (IsNoticeFault look packages.now general.now) }
{
    let lacks = all_lacks(alloc, packages)?;
    let texts = page_texts(alloc, look.marks_general, packages, &lacks, general)?;
    let groups = groups_of(alloc, packages)?;
    let turned = packages_in(alloc, &groups)?;
    let bytes = page_bytes(alloc, look.format, &groups, &turned, &texts)?;
    let missing = missing_of(alloc, &lacks, general)?;
    let totals = totals_of(alloc, packages, &texts, &missing)?;
    Ok(NoticeText {
        bytes,
        missing,
        totals,
    })
}

fn page_texts<'t>(
    alloc: Global,
    marks_general: bool,
    packages: &[Package<'_, 't>],
    lacks: &[Lack<'t>],
    general: &[GeneralText<'t>],
) -> Result<PageTexts<'t>, AllocError>
    ensures { IfOk result (IsTextsOf marks_general packages.now (map seen_lack lacks.now)
        general.now) }
{
    let owns = all_owns(alloc, packages)?;
    let shared = shared_texts(alloc, &owns)?;
    let own = own_texts(alloc, &shared)?;
    let used = used_of(alloc, lacks, general)?;
    let general = general_texts(alloc, marks_general, lacks, &used)?;
    Ok(PageTexts { own, general })
}

fn groups_of<'t>(alloc: Global, packages: &[Package<'_, 't>]) -> Result<Vec<Group<'t>>, AllocError>
    ensures { IfOk result (λ v. AreGroups packages.now (bands_of v.items)) }
{
    let all = noted_of(alloc, packages)?;
    let notice = notice_of(alloc, &all)?;
    Ok(notice.groups)
}

// The packages with the requirements of their choices.
fn noted_of<'c, 't>(
    alloc: Global,
    packages: &[Package<'c, 't>],
) -> Result<Vec<Noted<'c, 't>>, AllocError>
    ensures { IfOk result (λ v. v.items ≡ map noted packages.now) }
{
    let mut all = Vec::new(alloc);
    for one in packages {
        all.push(Noted {
            name: one.name,
            version: one.version,
            choice: one.choice,
        })?;
    }
    Ok(all)
}

fn page_bytes<'s>(
    alloc: Global,
    format: Format,
    groups: &[Group<'s>],
    packages: &[Release<'s>],
    texts: &'s PageTexts<'s>,
) -> Result<Vec<u8>, NoticeFault>
    ensures ok { IfOk result (λ v. v.items ≡ page_in format (told_of (bands_of groups.now)
        (map line_of packages.now) (texts_in texts.now))) }
    ensures err { IfErr result (IsPageFault format (texts_in texts.now)) }
{
    let views = views_of(alloc, texts)?;
    let shown = Page {
        title: TITLE,
        groups,
        packages,
        texts: &views,
    };
    let mut bytes = Vec::new(alloc);
    match put_page(alloc, &mut bytes, format, &shown) {
        Ok(()) => Ok(bytes),
        Err(PageError::Memory) => Err(NoticeFault::Memory),
        Err(PageError::NotUtf8(name)) => {
            Err(NoticeFault::NotUtf8(String::from_str(alloc, name)?))
        }
    }
}

fn views_of<'s>(
    alloc: Global,
    texts: &'s PageTexts<'s>,
) -> Result<Vec<LicenseText<'s, 's>>, AllocError>
    ensures { IfOk result (λ v. map named v.items ≡ texts_in texts.now) }
{
    let mut views = Vec::new(alloc);
    put_views(&mut views, &texts.own)?;
    put_views(&mut views, &texts.general)?;
    Ok(views)
}

fn totals_of(
    alloc: Global,
    packages: &[Package<'_, '_>],
    texts: &PageTexts<'_>,
    missing: &[Lack<'_>],
) -> Result<Totals, AllocError>
    ensures { IfOk result (AreTotals packages.now texts.now (map seen_lack missing.now)) }
{
    let all = releases_of(alloc, packages)?;
    let without = releases_in(alloc, missing)?;
    Ok(Totals {
        packages: count_once(all),
        own: texts.own.len(),
        general: texts.general.len(),
        without: count_once(without),
    })
}

// How many different ones there are.
fn count_once(releases: Vec<Release<'_>>) -> usize
    ensures { CountsOnce (map line_of releases.entry.items) result }
{
    let once = each_once(releases);
    once.len()
}

fn releases_of<'t>(
    alloc: Global,
    packages: &[Package<'_, 't>],
) -> Result<Vec<Release<'t>>, AllocError>
    ensures { IfOk result (λ v. map line_of v.items ≡ map line_of_package packages.now) }
{
    let mut releases = Vec::new(alloc);
    for one in packages {
        releases.push(release_of(one))?;
    }
    Ok(releases)
}
