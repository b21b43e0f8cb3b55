//! What settings make of a configuration.
ghost use Rattle.std.specs.Prelude.{◌≡◌, ◌≤◌};
ghost use Rattle.ea_model.specs.declared.units.TheConstants.{MAX_MEGABYTES};
ghost use Rattle.ea_model.specs.Settings as model;
ghost use Rattle.ea_flags.specs.Configs.{changed, changed_for, set_by, migrating, settled};
ghost use Rattle.ea_flags.specs.Configs.{fits_all};

use crate::flag::Scope;
use crate::setting::{Change, Setting};
use ea_model::{Config, Letter, NO_RULES, Settings, Strategy, pages_for};

/// The settings of an allocator, where no flag says otherwise.
pub const DEFAULT_SETTINGS: Settings = Settings {
    strategy: Strategy::AoffCbf,
    acul: 60,
    acfml: 0,
    sbct: 65_536,
    smbcs: 32_768,
    lmbcs: 655_360,
    mbcgs: 10,
    mmbcs: 0,
    mbsd: 3,
    rsbcmt: 80,
    rmbcmt: 50,
    rsbcst: 20,
    asbcst: 131_072,
    ramv: false,
    rules: NO_RULES,
};

/// The configuration, where no flag says otherwise: one scheduler, a super carrier of 64 megabytes.
pub const DEFAULT_CONFIG: Config = Config {
    schedulers: 1,
    scs: 64,
    b: DEFAULT_SETTINGS,
    d: DEFAULT_SETTINGS,
    e: DEFAULT_SETTINGS,
    h: DEFAULT_SETTINGS,
    l: DEFAULT_SETTINGS,
    r: DEFAULT_SETTINGS,
    s: DEFAULT_SETTINGS,
    t: DEFAULT_SETTINGS,
};

/// Changes the settings of an allocator.
fn apply(settings: &mut Settings, change: Change)
    ensures { settings.new ≡ changed change settings.old }
{
    match change {
        Change::As(strategy) => settings.strategy = strategy,
        Change::Acul(percent) => settings.acul = percent,
        Change::Acfml(bytes) => settings.acfml = bytes,
        Change::Sbct(units) => settings.sbct = units,
        Change::Smbcs(units) => settings.smbcs = units,
        Change::Lmbcs(units) => settings.lmbcs = units,
        Change::Mmbcs(units) => settings.mmbcs = units,
        Change::Asbcst(units) => settings.asbcst = units,
        Change::Mbcgs(carriers) => settings.mbcgs = carriers,
        Change::Mbsd(gaps) => settings.mbsd = gaps,
        Change::Rsbcmt(percent) => settings.rsbcmt = percent,
        Change::Rmbcmt(percent) => settings.rmbcmt = percent,
        Change::Rsbcst(percent) => settings.rsbcst = percent,
        Change::Ramv(always) => settings.ramv = always,
        Change::Nothing => (),
    }
}

/// Changes the settings of the allocators of a scope.
fn apply_to(config: &mut Config, scope: Scope, change: Change)
    ensures { config.new ≡ changed_for scope change config.old }
{
    match scope {
        Scope::One(Letter::B) => apply(&mut config.b, change),
        Scope::One(Letter::D) => apply(&mut config.d, change),
        Scope::One(Letter::E) => apply(&mut config.e, change),
        Scope::One(Letter::H) => apply(&mut config.h, change),
        Scope::One(Letter::L) => apply(&mut config.l, change),
        Scope::One(Letter::R) => apply(&mut config.r, change),
        Scope::One(Letter::S) => apply(&mut config.s, change),
        Scope::One(Letter::T) => apply(&mut config.t, change),
        Scope::All => {
            apply(&mut config.b, change);
            apply(&mut config.d, change);
            apply(&mut config.e, change);
            apply(&mut config.h, change);
            apply(&mut config.l, change);
            apply(&mut config.r, change);
            apply(&mut config.s, change);
            apply(&mut config.t, change);
        }
    }
}

/// Sets what a flag and its value say.
pub fn set(config: &mut Config, setting: Setting)
    ensures { config.new ≡ set_by config.old setting }
{
    match setting {
        Setting::Schedulers(count) => config.schedulers = count,
        Setting::SuperCarrier(megabytes) => config.scs = megabytes,
        Setting::Of { scope, change } => apply_to(config, scope, change),
        Setting::Nothing => (),
    }
}

/// Whether carriers can migrate under the strategy.
fn can_migrate(strategy: Strategy) -> bool
    ensures { result ≡ model.can_migrate strategy }
{
    !matches!(
        strategy,
        Strategy::Bf | Strategy::Aobf | Strategy::Gf | Strategy::Af
    )
}

/// The settings under which carriers can migrate, where they are to.
fn settle(settings: Settings) -> Settings
    ensures { result ≡ migrating settings }
{
    if settings.lets_migrate() && !can_migrate(settings.strategy) {
        Settings {
            strategy: Strategy::AoffCbf,
            ..settings
        }
    } else {
        settings
    }
}

/// The configuration after the last word.
pub fn settled_config(config: Config) -> Config
    ensures { result ≡ settled config }
{
    Config {
        b: settle(config.b),
        d: settle(config.d),
        e: settle(config.e),
        h: settle(config.h),
        l: settle(config.l),
        r: settle(config.r),
        s: settle(config.s),
        t: Settings {
            acul: 0,
            ..config.t
        },
        ..config
    }
}

/// Whether a main carrier fits in that many pages.
fn fits(settings: Settings, pages: u32) -> bool
    ensures { result ≡ Rattle.ea_flags.specs.Configs.fits settings pages }
{
    pages_for(settings.mmbcs) <= pages
}

/// Whether each allocator's main carrier fits an instance's region.
pub fn main_carriers_fit(config: Config) -> bool
    requires schedulers { 1 ≤ config.schedulers }
    requires size { config.scs ≤ MAX_MEGABYTES }
    ensures { result ≡ fits_all config }
{
    let pages = config.region_pages();
    fits(config.b, pages)
        && fits(config.d, pages)
        && fits(config.e, pages)
        && fits(config.h, pages)
        && fits(config.l, pages)
        && fits(config.r, pages)
        && fits(config.s, pages)
        && fits(config.t, pages)
}
